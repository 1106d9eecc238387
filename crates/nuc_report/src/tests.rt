mod entries;
mod outputs;
mod statuses;
