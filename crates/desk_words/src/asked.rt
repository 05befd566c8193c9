//! Reading the words of the command line.
ghost use Rattle.std.specs.Prelude.{◌≡◌, map, string_bytes};
ghost use Rattle.desk_words.specs.Words.{load_in, load_of, run_in, run_of, task_in};

use crate::task::Task;
use desk_common::{MAX_ITEMS, MAX_WORKERS};
use sms_construct::read_number;

/// What the words ask for, and `None` where they ask for nothing.
pub fn task_asked(words: &[String]) -> Option<Task>
    ensures { result ≡ task_in (map string_bytes words.now) }
{
    match words {
        [word] if word.as_str() == "run" => Some(Task::Run {
            volumes: false,
            workers: 1,
        }),
        [word, second] if word.as_str() == "run" && second.as_str() == "--volumes" => {
            Some(Task::Run {
                volumes: true,
                workers: 1,
            })
        }
        [word, seed, count] if word.as_str() == "gen" => {
            load_in(seed.as_bytes(), count.as_bytes())
        }
        [word, option, workers] if word.as_str() == "run" && option.as_str() == "--workers" => {
            run_in(false, workers.as_bytes())
        }
        [word, option, workers, last]
            if word.as_str() == "run"
                && option.as_str() == "--workers"
                && last.as_str() == "--volumes" => { run_in(true, workers.as_bytes()) }
        _ => None,
    }
}

// What a run by so many workers as the number says asks for.
fn run_in(volumes: bool, workers: &[u8]) -> Option<Task>
    ensures { result ≡ run_in volumes workers.now }
{
    let workers = read_number(workers)?;
    run_of(volumes, workers)
}

fn run_of(volumes: bool, workers: u32) -> Option<Task>
    ensures { result ≡ run_of volumes workers }
{
    if workers == 0 || workers > MAX_WORKERS {
        return None;
    }
    Some(Task::Run {
        volumes,
        workers: workers as u8,
    })
}

// What a seed and a number of items ask for.
fn load_in(seed: &[u8], count: &[u8]) -> Option<Task>
    ensures { result ≡ load_in seed.now count.now }
{
    let seed = read_number(seed)?;
    let count = read_number(count)?;
    load_of(seed, count)
}

fn load_of(seed: u32, count: u32) -> Option<Task>
    ensures { result ≡ load_of seed count }
{
    if count == 0 || count > MAX_ITEMS {
        return None;
    }
    Some(Task::Generate { seed, count })
}
