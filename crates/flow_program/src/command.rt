//! What the program's arguments say.
ghost use Rattle.std.specs.Prelude.{◌≡◌, ◌<◌, ◌≤◌, true, length, Some};
ghost use Rattle.std.specs.Str.{all_ascii_digits};
ghost use Rattle.std.specs.Str.Parse.{digits_value};
ghost use Rattle.flow_program.specs.Arguments.{counting_of, count_sized, crowd_of, crowd_sized, number_written};

use crate::count::CountSize;
use crate::crowd::CrowdSize;

/// Returns the crowd that the arguments name: the word `crowd`, and how many emitters, subscribers, and values of each
/// emitter. `None` for other arguments, or if a number is out of its range.
pub fn crowd_of(args: &[String]) -> Option<CrowdSize>
    ensures { result ≡ crowd_of args.now }
{
    match args {
        [command, emitters, subscribers, values] if command.as_str() == "crowd" => {
            crowd_sized(emitters.as_str(), subscribers.as_str(), values.as_str())
        }
        _ => None,
    }
}

/// Returns the count that the arguments name: the word `count`, and how many threads, and updates of each thread.
/// `None` for other arguments, or if a number is out of its range.
pub fn count_of(args: &[String]) -> Option<CountSize>
    ensures { result ≡ counting_of args.now }
{
    match args {
        [command, threads, updates] if command.as_str() == "count" => {
            count_sized(threads.as_str(), updates.as_str())
        }
        _ => None,
    }
}

fn crowd_sized(emitters: &str, subscribers: &str, values: &str) -> Option<CrowdSize>
    ensures { result ≡
        crowd_sized (number_written emitters.now) (number_written subscribers.now) (number_written values.now) }
{
    let emitters = number_in(emitters)?;
    let subscribers = number_in(subscribers)?;
    let values = number_in(values)?;
    CrowdSize::new(emitters, subscribers, values)
}

fn count_sized(threads: &str, updates: &str) -> Option<CountSize>
    ensures { result ≡ count_sized (number_written threads.now) (number_written updates.now) }
{
    let threads = number_in(threads)?;
    let updates = number_in(updates)?;
    CountSize::new(threads, updates)
}

/// Returns the number that a text of one to five ASCII digits writes.
fn number_in(text: &str) -> Option<u32>
    ensures { result ≡ number_written text.now }
{
    if 1 <= text.len() && text.len() <= 5 && has_digits_alone(text.as_bytes()) {
        read_short(text)
    } else {
        None
    }
}

/// Returns the number that at most five digits write.
fn read_short(text: &str) -> Option<u32>
    requires digits { all_ascii_digits text.now ≡ true }
    requires some { 0 < length text.now }
    requires short { length text.now ≤ 5 }
    ensures { result ≡ Some (digits_value 10 text.now) }
{
    text.parse::<u32>().ok()
}

fn has_digits_alone(text: &[u8]) -> bool
    ensures { result ≡ all_ascii_digits text.now }
{
    for byte in text {
        if !byte.is_ascii_digit() {
            return false;
        }
    }
    true
}
