//! The desk served on a port of this machine.
ghost use Rattle.std.specs.Prelude.{◌≡◌, IfOk, Some, length, map, string_bytes};
ghost use Rattle.std.specs.Process.{exit_status};
ghost use Rattle.desk_words.specs.Serving.{serving_in};
ghost use Rattle.desk_words.specs.declared.served.ServeWords.{ServeWords as Asked};
ghost use Rattle.serve_calls.specs.ServeStatuses.{serve_status_of};

use crate::explaining::sentence_of_serving;
use desk_words::ServeWords;
use serve_calls::{ServeStatus, serve_main};
use sms_base::{StdSink, TcpAccept};
use sms_desk::FreeGate;
use sms_keeper::MemKeeper;
use std::alloc::{AllocError, Global};
use std::io::{self, ErrorKind, Write};
use std::mem::forget;
use std::net::{Ipv4Addr, TcpListener};
use std::process::ExitCode;
use std::sync::Wait;
use std::thread::Threads;

// The exit status where the port can't be had.
const NOT_BOUND: u8 = 9;

/// Serves the desk on the port of 127.0.0.1, as the words ask, and ends the program.
pub fn serve<T: Threads + Wait + Sync>(
    rt: &HostRuntime,
    threads: &T,
    asked: ServeWords,
    words: &[String],
) -> ExitCode
    requires { (other : Asked) → serving_in (map string_bytes words.now) ≡ Some other → other.workers ≡ asked.workers }
{
    match TcpListener::bind(rt, (Ipv4Addr::LOCALHOST, asked.port)) {
        Ok(listener) => {
            let _ = eprintln!(rt; "smsctl: listening on 127.0.0.1:{}", asked.port);
            end(rt, serve_on(rt, threads, &listener, asked.workers, words))
        }
        Err(error) if error.kind() == ErrorKind::OutOfMemory => end(rt, ServeStatus::NoMemory),
        Err(error) => refuse(rt, asked.port, error),
    }
}

// Serves the desk to the connections of a listener by so many workers.
fn serve_on<T: Threads + Wait + Sync>(
    rt: &HostRuntime,
    threads: &T,
    listener: &TcpListener,
    workers: u8,
    words: &[String],
) -> ServeStatus
    requires { (other : Asked) → serving_in (map string_bytes words.now) ≡ Some other → other.workers ≡ workers }
{
    let Ok(doors) = doors_of(rt.alloc(), listener, usize::from(workers)) else {
        return ServeStatus::NoMemory;
    };
    let mut out = StdSink::new(io::writer(rt));
    let keeper = MemKeeper::new(rt.alloc());
    let (status, core, _doors, visits) = serve_main(
        rt.alloc(),
        threads,
        words,
        doors,
        &mut out,
        keeper,
        &FreeGate,
    );
    // The program ends, which frees all at once.
    forget(core);
    forget(visits);
    status
}

// So many doors over the listener.
fn doors_of<'a>(
    alloc: Global,
    listener: &'a TcpListener,
    count: usize,
) -> Result<Vec<TcpAccept<'a, TcpListener>>, AllocError>
    ensures { IfOk result (λ doors. length doors.items ≡ count) }
{
    let mut doors = Vec::new(alloc);
    for _ in 0..count {
        if doors.push(TcpAccept::new(listener)).is_err() {
            return Err(AllocError);
        }
    }
    Ok(doors)
}

// Says why the port can't be had, and ends the program.
fn refuse(rt: &HostRuntime, port: u16, error: io::Error) -> ExitCode
    ensures { exit_status result ≡ 9 }
{
    let _ = eprintln!(rt; "smsctl: status {NOT_BOUND}");
    let _ = eprintln!(rt;
        "smsctl: port {port} of 127.0.0.1 can't be had: {error}; nothing was served"
    );
    ExitCode::from(NOT_BOUND)
}

// Says a status other than 0 on standard error, with what it means, and ends the program with it.
fn end(rt: &HostRuntime, status: ServeStatus) -> ExitCode
    ensures { exit_status result ≡ serve_status_of status }
{
    let code = status.code();
    if let Some(sentence) = sentence_of_serving(status) {
        let _ = eprintln!(rt; "smsctl: status {code}");
        let _ = eprintln!(rt; "smsctl: {sentence}");
    }
    ExitCode::from(code)
}
