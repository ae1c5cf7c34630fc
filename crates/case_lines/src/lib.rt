// What the test programs share: the lines of their input, the numbers and elements in them, and what is printed. Each function
// is proved safe and ending, and promises little else.
#![tactic(auto)]

mod elements;
pub mod lines;
pub mod marks;
pub mod numbers;
pub mod sheets;
pub mod shown;
