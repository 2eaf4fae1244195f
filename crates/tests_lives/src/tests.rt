mod answers;
mod courses;
mod durable;
mod promotions;
mod replays;
mod replicas;
mod starts;
mod trackers;
