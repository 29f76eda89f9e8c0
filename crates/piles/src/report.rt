// What a step came to, as it is printed.
use gmap::refusal::Refusal;
use std::fmt::Display;
use std::io;

// Prints the result of a step, or the number of its refusal.
pub fn report<T: Display + Drop>(
    rt: HostRuntime,
    step: &str,
    outcome: Result<T, Refusal>,
) -> io::Result<()> {
    match outcome {
        Ok(result) => println!(rt; "  {step}: {result}"),
        Err(refusal) => println!(rt; "  {step}: refused {refusal}"),
    }
}
