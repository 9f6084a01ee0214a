mod faults;
mod files;
mod jobs;
