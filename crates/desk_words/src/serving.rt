//! Reading the words of the command line that ask to serve the desk.
ghost use Rattle.std.specs.Prelude.{◌≡◌, map, string_bytes, IfSome};
ghost use Rattle.desk_words.specs.Serving.{IsWithinLimits, serving_in, serving_by, serving_of};

use crate::served::ServeWords;
use desk_common::MAX_WORKERS;
use sms_construct::read_number;

// The greatest port.
const MAX_PORT: u32 = 65_535;

// The most connections of a worker.
const MAX_CONNECTIONS: u32 = 1_000_000;

/// What the words ask to be served, and `None` where they don't ask to serve the desk.
pub fn serve_words(words: &[String]) -> Option<ServeWords>
    ensures asked { result ≡ serving_in (map string_bytes words.now) }
    ensures limits { IfSome result IsWithinLimits }
{
    match words {
        [word, port, connections] if word.as_str() == "serve" => {
            serving_by(port.as_bytes(), connections.as_bytes(), 1)
        }
        [word, port, connections, option, workers]
            if word.as_str() == "serve" && option.as_str() == "--workers" => {
            let workers = read_number(workers.as_bytes())?;
            serving_by(port.as_bytes(), connections.as_bytes(), workers)
        }
        _ => None,
    }
}

// What a port, a number of connections and so many workers ask.
fn serving_by(port: &[u8], connections: &[u8], workers: u32) -> Option<ServeWords>
    ensures asked { result ≡ serving_by port.now connections.now workers }
    ensures limits { IfSome result IsWithinLimits }
{
    let port = read_number(port)?;
    let connections = read_number(connections)?;
    serving_of(port, connections, workers)
}

fn serving_of(port: u32, connections: u32, workers: u32) -> Option<ServeWords>
    ensures asked { result ≡ serving_of port connections workers }
    ensures limits { IfSome result IsWithinLimits }
{
    if port == 0 || port > MAX_PORT {
        return None;
    }
    if connections == 0 || connections > MAX_CONNECTIONS {
        return None;
    }
    if workers == 0 || workers > MAX_WORKERS {
        return None;
    }
    Some(ServeWords {
        port: port as u16,
        connections,
        workers: workers as u8,
    })
}
