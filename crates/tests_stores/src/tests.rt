mod makers;
mod overlays;
mod stores;
mod tables;
