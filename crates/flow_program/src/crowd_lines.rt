//! The lines of a crowd.
ghost use Rattle.std.specs.Prelude.{◌≡◌, ◌++◌, ◌*◌, All, OnOk, IfOk, length, string_bytes};
ghost use Rattle.flow_program.specs.Crowds.{GotAll};
ghost use Rattle.flow_program.specs.CrowdLines.{crowd_lines, subscriber_line, subscriber_lines};

use crate::crowd::CrowdSize;
use std::alloc::{AllocError, Global};

/// Returns the lines of a crowd: what each subscriber got, numbered from 1, and how many values were emitted.
pub fn crowd_text(alloc: Global, got: &[Vec<u64>], size: CrowdSize) -> Result<String, AllocError>
    requires subscribers { length got.now ≡ size.subscribers }
    requires got { All (λ list. GotAll size list.items) got.now }
    ensures { IfOk result (λ text. string_bytes text ≡ crowd_lines size) }
{
    let mut text = String::new(alloc);
    add_subscribers(&mut text, got, size)?;
    let emitted = size.emitted();
    writeln!(text, "emitted {emitted}")?;
    Ok(text)
}

/// Adds a line for each subscriber, from number 1 on. Each line ends with `in order`, since `run_crowd` returns no
/// other lists.
fn add_subscribers(text: &mut String, got: &[Vec<u64>], size: CrowdSize) -> Result<(), AllocError>
    requires { All (λ list. GotAll size list.items) got.now }
    ensures { OnOk result (string_bytes text.new
        ≡ string_bytes text.old ++
        subscriber_lines 1 (length got.now) (size.emitters * size.values)) }
{
    for index in 0..got.len() {
        add_subscriber(text, index + 1, got[index].len())?;
    }
    Ok(())
}

fn add_subscriber(text: &mut String, number: usize, count: usize) -> Result<(), AllocError>
    ensures { OnOk result
        (string_bytes text.new ≡ string_bytes text.old ++ subscriber_line number count) }
{
    writeln!(text, "subscriber {number} got {count} in order")
}
