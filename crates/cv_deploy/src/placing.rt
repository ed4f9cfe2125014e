//! Faults with their lines and columns.

ghost use Rattle.std.specs.Prelude.{◌≡◌, ◌≤◌, ◌^◌, length};
ghost use Rattle.cv_deploy.specs.Faults.{StandsAt};

use crate::fault::{Code, Fault};

/// The fault that stands at a byte.
pub fn fault_at(source: &[u8], at: u32, code: Code) -> Fault
    requires { length source.now ≤ 2 ^ 31 }
    ensures place { StandsAt source.now at result }
    ensures code { result.code ≡ code }
{
    let mut line = 1;
    let mut col = 1;
    for byte in &source[..source.len().min(at as usize)] {
        if *byte == b'\n' {
            line += 1;
            col = 1;
        } else {
            col += 1;
        }
    }
    Fault { line, col, code }
}
