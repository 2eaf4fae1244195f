mod calls;
mod files;
mod makers;
mod sets;
