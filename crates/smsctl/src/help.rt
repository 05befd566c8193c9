//! The help and the version of the program.

const HELP: &str = "smsctl - the allocation desk

smsctl run             answer the script on standard input
smsctl run --workers N by so many workers, 1 to 16
smsctl run --volumes   with the table of volumes behind the answers; it stands
                       behind --workers N where both are asked for
smsctl run --db FILE   keep the records in FILE, a database of SQLite's form that
                       the run makes, or goes on from where it has records;
                       each answer is kept before the next
smsctl run --manage DAY
                       and manage space behind the answers: delete what has
                       expired on that day, and release what is unused
smsctl gen SEED COUNT  answer a generated script, and sum up the answers
smsctl serve PORT CONNECTIONS
                       serve the desk over HTTP on 127.0.0.1 to so many
                       connections, one after the other; with --workers N
                       behind these words by so many workers, 1 to 16, and
                       to so many connections by each
smsctl --help          this text
smsctl --version       the version

For example:

    smsctl run --volumes < morning.txt > answers.txt
    smsctl run --workers 4 < morning.txt > answers.txt
    smsctl run --db morning.db < morning.txt > answers.txt
    smsctl run --manage 120 < morning.txt > answers.txt
    smsctl gen 1 40000
    smsctl serve 8080 100
    smsctl serve 8080 100 --workers 4

docs/manual/script.md has the script's lines, the answers and the exit statuses,
docs/manual/records.md the records in a file, docs/manual/management.md a day of space
management, docs/manual/generator.md the generated script, docs/manual/http.md the desk over
HTTP.
";

const VERSION: &str = "smsctl 0.1.0\n";

/// The text that the words ask for, if they ask for one.
pub fn text_for(words: &[String]) -> Option<&'static str> {
    match words {
        [word] if word.as_str() == "--help" => Some(HELP),
        [word] if word.as_str() == "--version" => Some(VERSION),
        _ => None,
    }
}
