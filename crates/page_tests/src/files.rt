//! The files of the desk's page as they are served.
use crate::desks::clerk_behind;
use http_flow::{Conversation, Pages};
use http_head::Routes;
use http_page::Site;
use page_clerk::PageClerk;
use sms_keeper::FaultKeeper;
use std::alloc::Global;
use std::test::Fail;

/// What a browser asks, and how the answer begins and ends.
#[rattlefmt::skip]
static ROWS: &[(&str, &str, &str)] = &[
    ("GET / HTTP/1.1\r\nHost: 127.0.0.1:8080\r\n\r\n",
        "HTTP/1.1 200 OK\r\nContent-Type: text/html; charset=utf-8\r\nX-Content-Type-Options: nosniff\r\n\
        Content-Security-Policy: default-src 'self'; frame-ancestors 'none'; base-uri 'none'; form-action 'none'\r\n\
        Content-Length: 6222\r\nConnection: keep-alive\r\n\r\n\
        <!doctype html>\n", "</html>\n"),
    ("GET /desk.css HTTP/1.1\r\nHost: localhost:8080\r\n\r\n",
        "HTTP/1.1 200 OK\r\nContent-Type: text/css; charset=utf-8\r\nX-Content-Type-Options: nosniff\r\n\
        Content-Length: 12860\r\n\
        Connection: keep-alive\r\n\r\n/*", "}\n"),
    ("GET /desk.js HTTP/1.1\r\nHost: [::1]:8080\r\nConnection: close\r\n\r\n",
        "HTTP/1.1 200 OK\r\nContent-Type: text/javascript; charset=utf-8\r\nX-Content-Type-Options: nosniff\r\n\
        Content-Length: 79384\r\n\
        Connection: close\r\n\r\n//", "\nbegin();\n"),
    ("GET / HTTP/1.1\r\nHost: desk.example:8080\r\n\r\n", "HTTP/1.1 403 Forbidden\r\n", "another site\"}"),
];

// Whether the row is answered so.
fn is_served(
    alloc: Global,
    clerk: &mut PageClerk<FaultKeeper>,
    row: &(&str, &str, &str),
) -> Result<bool, Fail> {
    if !clerk.has_room() {
        return Ok(false);
    }
    let routes = Routes::new(alloc)?;
    let site = Site::new(alloc, 8080)?;
    let mut conversation = Conversation::new(alloc);
    conversation.receive(alloc, &routes, &site, clerk, row.0.as_bytes());
    let due = conversation.due();
    Ok(due.starts_with(row.1.as_bytes()) && due.ends_with(row.2.as_bytes()))
}

fn are_served(alloc: Global) -> Result<bool, Fail> {
    let mut clerk = clerk_behind(alloc, "")?;
    for row in ROWS {
        if !is_served(alloc, &mut clerk, row)? {
            return Ok(false);
        }
    }
    Ok(true)
}

#[test]
fn files_are_served_whole(rt: HostRuntime) -> Result<(), Fail> {
    assert!(rt; are_served(rt.alloc())?);
    Ok(())
}
