mod again;
mod courses;
mod limits;
mod makers;
mod one_thread;
mod steps;
mod values;
