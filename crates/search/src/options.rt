// What the arguments ask for.
ghost use Rattle.std.specs.Prelude.{◌≤◌, IfOk};

use anyhow::anyhow;
use rules::Rule;
use std::env;

// The dispatch rule, and how many rows the table has.
#[derive(Clone, Copy)]
pub struct Options {
    pub rule: Rule,
    pub rows: u16,
    ghost some: { 1 ≤ rows },
}

// A number of rows: 1 to 65,535.
fn rows_in(word: &str) -> anyhow::Result<u16>
    ensures { IfOk result (λ rows. 1 ≤ rows) }
{
    match word.parse::<u16>() {
        Ok(rows) if rows > 0 => Ok(rows),
        _ => Err(anyhow!("rows={word}: 1 to 65535 rows")),
    }
}

fn rule_in(word: &str) -> anyhow::Result<Rule> {
    word.parse::<Rule>()
        .map_err(|error| anyhow!("rule={word}: {error}"))
}

impl Options {
    // One argument more: rule=RULE or rows=NUMBER.
    fn with(self, word: &str) -> anyhow::Result<Options> {
        let Options { rule, rows } = self;
        match word.split_once('=') {
            Some(("rule", word)) => Ok(Options {
                rule: rule_in(word)?,
                rows,
            }),
            Some(("rows", word)) => Ok(Options {
                rule,
                rows: rows_in(word)?,
            }),
            _ => Err(anyhow!("'{word}': rule=RULE and rows=NUMBER are understood")),
        }
    }

    // Priority and 65,535 rows, unless the arguments say otherwise.
    pub fn read(rt: &HostRuntime) -> anyhow::Result<Options> {
        let usual = Options {
            rule: Rule::Priority,
            rows: 65_535,
        };
        env::args(rt)?
            .skip(1)
            .try_fold(usual, |options, word| options.with(word.as_str()))
    }
}
