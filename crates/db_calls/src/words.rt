//! Reading the words of the command line that name a database.
ghost use Rattle.std.specs.Prelude.{◌≡◌, MatchOption, None, Some, map, string_bytes};
ghost use Rattle.db_calls.specs.DbWords.{database_in};

/// The file that the words name, and `None` where they name none.
pub fn database_asked(words: &[String]) -> Option<&str>
    ensures { MatchOption result (database_in (map string_bytes words.now) ≡ None)
        (λ file. database_in (map string_bytes words.now) ≡ Some file.now) }
{
    match words {
        [word, option, file] if word.as_str() == "run" && option.as_str() == "--db" => {
            Some(file.as_str())
        }
        _ => None,
    }
}
