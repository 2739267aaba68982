mod compare;
mod days;
mod devices;
mod identities;
mod lines;
mod records;
mod times;
mod tiplocs;
