// A reader of frames may require what its caller has tested.
pub mod frames;
pub mod header;
pub mod numbers;
