// Worked rows. Threads share it in the tests above all structures.
mod local;
mod rows;
