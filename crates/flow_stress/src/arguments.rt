//! The arguments of the program.

/// The seed of a run, and its numbers of threads and rounds.
#[derive(Clone, Copy)]
pub struct Size {
    /// The seed by which each thread chooses its calls.
    pub seed: u64,
    pub threads: u32,
    /// The number of rounds of each thread.
    pub rounds: u32,
}

/// The threads of a crowd, and how much they send.
#[derive(Clone, Copy)]
pub struct CrowdSize {
    /// The seed by which each thread chooses its calls, and when it yields.
    pub seed: u64,
    pub emitters: u32,
    pub readers: u32,
    /// The number of values that the flow has room for.
    pub capacity: u32,
    /// The number of values that all emitters send together.
    pub values: u32,
}

impl CrowdSize {
    /// Returns how many values the emitter of this number sends. All emitters together send `values`.
    pub fn share_of(self, number: u32) -> u32 {
        let each = self.values.checked_div(self.emitters).unwrap_or(0);
        let rest = self.values.checked_rem(self.emitters).unwrap_or(0);
        each.saturating_add(u32::from(number < rest))
    }
}

/// The work of threads at a flow.
#[derive(Clone, Copy)]
pub enum Job {
    /// Half of the threads emit into a shared flow, and half of them read from it.
    Share,
    /// Each thread emits into a shared flow, and reads from it.
    Exchange,
    /// Each thread adds to a state flow.
    Add,
    /// Some threads send all values through a shared flow, and others receive them.
    Crowd(CrowdSize),
    /// Each thread makes calls of any kind, which are recorded.
    Record,
}

impl Job {
    /// Returns whether the thread of this number reads all values of a crowd.
    pub fn reads_at_once(self, number: u32) -> bool {
        match self {
            Job::Crowd(size) => number < size.readers,
            _ => false,
        }
    }
}

pub const MOST_THREADS: u32 = 64;

/// The most values that a shared flow can have room for.
const MOST_ROOM: u32 = 65_536;

/// The kind of the flow whose calls are recorded.
#[derive(Clone, Copy)]
pub enum RecordedKind {
    /// A state flow without a lock.
    Word,
    /// A state flow behind a gate.
    State,
    /// A shared flow that suspends.
    Shared,
    /// A shared flow that drops the oldest value.
    Dropping,
    /// A shared flow without a buffer.
    Rendezvous,
    /// A shared flow that is read without a lock.
    WordFlow,
}

/// The task of the program.
#[derive(Clone, Copy)]
pub enum Task {
    Stress(Size),
    Crowd(CrowdSize),
    /// A crowd at a shared flow that is read without a lock.
    WordCrowd(CrowdSize),
    Record(RecordedKind, Size),
}

/// Reads a number from `least` to `most`. Returns None if the word is not one.
fn number_in(word: &str, least: u32, most: u32) -> Option<u32> {
    let number = word.parse::<u32>().ok()?;
    if least <= number && number <= most {
        Some(number)
    } else {
        None
    }
}

/// Reads the seed, the number of threads (at least 4) and the number of rounds. Returns None for other words.
fn size_of(words: &[String]) -> Option<Size> {
    let [seed, threads, rounds] = words else {
        return None;
    };
    Some(Size {
        seed: seed.parse::<u64>().ok()?,
        threads: number_in(threads.as_str(), 4, MOST_THREADS)?,
        rounds: rounds.parse::<u32>().ok()?,
    })
}

/// Reads the size of a crowd. Returns None for other words.
fn crowd_size_of(words: &[String]) -> Option<CrowdSize> {
    let [seed, emitters, readers, capacity, values] = words else {
        return None;
    };
    Some(CrowdSize {
        seed: seed.parse::<u64>().ok()?,
        emitters: number_in(emitters.as_str(), 1, MOST_THREADS)?,
        readers: number_in(readers.as_str(), 1, MOST_THREADS)?,
        capacity: number_in(capacity.as_str(), 0, MOST_ROOM)?,
        values: values.parse::<u32>().ok()?,
    })
}

fn kind_of(word: &str) -> Option<RecordedKind> {
    match word {
        "word" => Some(RecordedKind::Word),
        "state" => Some(RecordedKind::State),
        "shared" => Some(RecordedKind::Shared),
        "dropping" => Some(RecordedKind::Dropping),
        "rendezvous" => Some(RecordedKind::Rendezvous),
        "word-flow" => Some(RecordedKind::WordFlow),
        _ => None,
    }
}

/// Reads the kind of the flow to record, and the size. Returns None for other words.
fn record_of(words: &[String]) -> Option<Task> {
    let kind = kind_of(words.first()?.as_str())?;
    let size = size_of(words.get(1..)?)?;
    Some(Task::Record(kind, size))
}

/// Reads the task of the program. Returns None for other words.
pub fn task_of(words: &[String]) -> Option<Task> {
    let rest = words.get(1..)?;
    match words.first()?.as_str() {
        "--record" => record_of(rest),
        "--crowd" => Some(Task::Crowd(crowd_size_of(rest)?)),
        "--word-crowd" => Some(Task::WordCrowd(crowd_size_of(rest)?)),
        _ => Some(Task::Stress(size_of(words)?)),
    }
}
