mod histories;
mod locks;
mod recovering;
mod source;
mod trackers;
mod write_sets;
