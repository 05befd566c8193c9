//! A store served on a port of this machine.
ghost use Rattle.std.specs.Prelude.{◌≡◌, IfErr, IfOk};
ghost use Rattle.std.specs.Process.{exit_status};
ghost use Rattle.store_calls.specs.Statuses.{store_status_of};
ghost use Rattle.smsd.specs.Ends.{IsServeEnd};
ghost use Rattle.smsd.specs.Inner.Serving.{EndsServe};
ghost use Rattle.smsd.specs.Served.{IsOfServing, IsPortEnd, IsUnbound, loop_status_of, serving_status_of};

use crate::closing::Closing;
use crate::ending::{end_refused, end_unwaited, end_wanting, end_well, end_with};
use crate::explaining::{note_port, note_status};
use crate::store::open;
use logged_wires::LoggedDoor;
use mio_poll::PollDoor;
use ready_wires::Readiness;
use serve_poll::LoopEnd;
use sms_keeper::Stored;
use sms_open::OpenErr;
use smsd_serving::{ServingEnd, keep_serving};
use smsd_words::Serving;
use std::io::{self, ErrorKind, Write};
use std::mem::forget;
use std::net::{Ipv4Addr, SocketAddr};
use std::process::ExitCode;
use std::time::Duration;
use store_calls::StoreStatus;

/// Serves the store on a port of 127.0.0.1 until the program is ended, or waiting for connections fails.
pub fn serve(rt: &HostRuntime, store: &str, serving: Serving) -> ExitCode
    ensures { IsServeEnd (exit_status result) }
{
    serve_opened(rt, serving, open(rt, store))
}

// The same of the store that was opened; or ends the program as the opening did.
fn serve_opened<P: Closing>(
    rt: &HostRuntime,
    serving: Serving,
    opened: Result<P, ExitCode>,
) -> ExitCode
    ensures unopened { IfErr opened (λ code. exit_status result ≡ exit_status code) }
    ensures served { IfOk opened (λ _. IsPortEnd (exit_status result)) }
{
    match opened {
        Ok(keeper) => serve_keeper(rt, serving, keeper),
        Err(code) => code,
    }
}

// Serves the store of the keeper, where the port is to be had.
fn serve_keeper<P: Closing>(rt: &HostRuntime, serving: Serving, keeper: P) -> ExitCode
    ensures { IsPortEnd (exit_status result) }
{
    let address = SocketAddr::from((Ipv4Addr::LOCALHOST, serving.port));
    let most = usize::from(serving.connections);
    let patience = Duration::from_secs(u64::from(serving.idle));
    match PollDoor::bind(rt.alloc(), rt, address, most, patience) {
        Ok(door) => serve_at(rt, serving, door, keeper),
        Err(error) => {
            keeper.close();
            end_unbound(rt, serving.port, error)
        }
    }
}

// Serves it at a door.
fn serve_at<P: Closing>(
    rt: &HostRuntime,
    serving: Serving,
    door: PollDoor<'_, HostRuntime>,
    keeper: P,
) -> ExitCode
    ensures { IsOfServing (exit_status result) }
{
    let port = serving.port;
    let _ = eprintln!(rt; "smsd: listening on 127.0.0.1:{port}");
    if serving.log {
        return keep_and_close(rt, serving, LoggedDoor::new(rt, door), keeper);
    }
    keep_and_close(rt, serving, door, keeper)
}

// Serves the store of the keeper to those that come through the door, and closes it.
fn keep_and_close<P: Closing, R: Readiness + Drop>(
    rt: &HostRuntime,
    serving: Serving,
    door: R,
    keeper: P,
) -> ExitCode
    ensures { IsOfServing (exit_status result) }
{
    let mut door = door;
    let most = usize::from(serving.connections);
    let (code, keeper) = keep(rt, serving.port, &mut door, keeper, most);
    keeper.close();
    code
}

// Serves the store of the keeper to those that come, and says how the program ends, with the keeper.
fn keep<P: Stored, R: Readiness>(
    rt: &HostRuntime,
    port: u16,
    door: &mut R,
    keeper: P,
    most: usize,
) -> (ExitCode, P)
    ensures { EndsServe P.Keeper.told P.Keeper.count P.damage R.Conn.seen port keeper result.1
        (R.seen door.old) (R.seen door.new) (R.back door.old) (R.back door.new) (exit_status result.0) }
{
    match keep_serving(rt.alloc(), port, door, keeper, most, u64::MAX) {
        Ok((kept, keeper)) => {
            let code = end_serving(rt, kept.end);
            // The program ends, which frees all at once.
            forget(kept);
            (code, keeper)
        }
        Err((keeper, err)) => (end_unserved(rt, err), keeper),
    }
}

// Says why serving ended, and ends the program.
fn end_serving(rt: &HostRuntime, why: ServingEnd) -> ExitCode
    ensures { exit_status result ≡ serving_status_of why }
{
    match why {
        ServingEnd::Loop(why) => end_loop(rt, why),
        ServingEnd::Unopened(err) => end_unserved(rt, err),
    }
}

// Says why no desk goes on from the store, and ends the program.
fn end_unserved(rt: &HostRuntime, err: OpenErr) -> ExitCode
    ensures { exit_status result ≡ store_status_of (StoreStatus.Unopened err) }
{
    let status = StoreStatus::Unopened(err);
    let mut note = String::new(rt.alloc());
    note_status(rt.alloc(), &mut note, status, None);
    end_with(rt, status, &note)
}

// Says why no further event is awaited, and ends the program.
fn end_loop(rt: &HostRuntime, why: LoopEnd) -> ExitCode
    ensures { exit_status result ≡ loop_status_of why }
{
    match why {
        LoopEnd::Failed => end_unwaited(rt),
        LoopEnd::Turns | LoopEnd::Ended | LoopEnd::Numbers => end_well(),
    }
}

// Says why the port can't be had, and ends the program.
fn end_unbound(rt: &HostRuntime, port: u16, error: io::Error) -> ExitCode
    ensures { IsUnbound (exit_status result) }
{
    if is_wanting(&error) {
        return end_wanting(rt);
    }
    refuse(rt, port, error)
}

// Whether memory was wanting.
fn is_wanting(error: &io::Error) -> bool {
    error.kind() == ErrorKind::OutOfMemory
}

// Says what hinders that the port is had, and ends the program.
fn refuse(rt: &HostRuntime, port: u16, error: io::Error) -> ExitCode
    ensures { exit_status result ≡ 9 }
{
    let mut note = String::new(rt.alloc());
    note_port(rt.alloc(), &mut note, port, error);
    end_refused(rt, &note)
}
