//! What is asked of a database in SQL.
use sqlite::{Alter, Connection};
use std::alloc::{AllocError, Global};

/// How many rows each of the five tables has.
static COUNTS: [&str; 5] = [
    "SELECT count(*) FROM sets",
    "SELECT count(*) FROM replies",
    "SELECT count(*) FROM decks",
    "SELECT count(*) FROM statuses",
    "SELECT count(*) FROM floors",
];

/// Whether the line is an order to a database.
pub fn is_order(line: &str) -> bool {
    line == "counts" || line.starts_with("sql ") || line.starts_with("asks ")
}

/// Carries out each order `sql TEXT`; where one fails a line says so.
pub fn carry_out<S: Alter>(
    connection: &mut Connection<S>,
    orders: &str,
    lines: &mut String,
) -> Result<(), AllocError> {
    for order in orders.lines() {
        if let Some(sql) = order.strip_prefix("sql ") {
            if !is_carried_out(connection, sql) {
                lines.push_str("SQL FAILED\n")?;
            }
        }
    }
    Ok(())
}

fn is_carried_out<S: Alter>(connection: &mut Connection<S>, sql: &str) -> bool {
    connection.execute_batch(sql).is_ok()
}

/// Adds a line `FOUND N` for each order `asks QUERY`, and for the order `counts` a line `ROWS` with the counts of the
/// five tables.
pub fn push_found<S: Alter>(
    alloc: Global,
    connection: &mut Connection<S>,
    orders: &str,
    lines: &mut String,
) -> Result<(), AllocError> {
    for order in orders.lines() {
        if let Some(sql) = order.strip_prefix("asks ") {
            push_line(alloc, connection, "FOUND", &[sql], lines)?;
        }
        if order == "counts" {
            push_line(alloc, connection, "ROWS", &COUNTS, lines)?;
        }
    }
    Ok(())
}

// Adds a line with the number of each query.
fn push_line<S: Alter>(
    alloc: Global,
    connection: &mut Connection<S>,
    word: &str,
    queries: &[&str],
    lines: &mut String,
) -> Result<(), AllocError> {
    lines.push_str(word)?;
    for sql in queries {
        push_number(alloc, number_of(connection, sql), lines)?;
    }
    lines.push_str("\n")
}

fn push_number(alloc: Global, number: Option<i64>, lines: &mut String) -> Result<(), AllocError> {
    match number {
        Some(number) => lines.push_str(&number_text(alloc, number)?),
        None => lines.push_str(" NONE"),
    }
}

fn number_text(alloc: Global, number: i64) -> Result<String, AllocError> {
    format!(in alloc; " {number}")
}

/// The number that the query answers, if it answers one.
pub fn number_of<S: Alter>(connection: &mut Connection<S>, sql: &str) -> Option<i64> {
    let row = connection.query_row(sql, &[]).ok()?;
    row.get::<i64>(0).ok()
}
