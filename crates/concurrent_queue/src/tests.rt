// Worked rows. Threads share it in the tests above all structures.
mod rows;
mod shared;
