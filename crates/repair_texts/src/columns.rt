//! What a line says, as named words and named numbers.

ghost use Rattle.std.specs.Prelude.{◌≡◌, decimal, map};
ghost use Rattle.repair_texts.specs.Columns.{word_of, words_of, number_of, numbers_of};

use crate::lines::{Figures, Head};

/// What was measured, and its figures.
#[derive(Clone, Copy)]
pub struct Row<'a> {
    pub head: Head<'a>,
    pub figures: Figures,
}

/// A named word.
#[derive(Clone, Copy)]
pub(crate) struct Word<'a> {
    pub(crate) name: &'static str,
    pub(crate) word: &'a str,
}

/// A named number.
#[derive(Clone, Copy)]
pub(crate) struct Number {
    pub(crate) name: &'static str,
    pub(crate) number: u64,
}

/// The words of a row.
pub(crate) fn words_of<'a>(head: &Head<'a>) -> [Word<'a>; 3]
    ensures words { map word_of result ≡ words_of head.now }
    ensures texts { map (λ w. w.word.now) result ≡ map (λ w. w.1) (words_of head.now) }
{
    [
        Word {
            name: "measure",
            word: head.measure,
        },
        Word {
            name: "daemon",
            word: head.daemon,
        },
        Word {
            name: "from",
            word: head.start,
        },
    ]
}

/// The numbers of a row.
pub(crate) fn numbers_of(row: &Row<'_>) -> [Number; 13]
    ensures numbers { map number_of result ≡ numbers_of row.now }
    ensures digits { map (λ n. decimal n.number) result
        ≡ map (λ n. decimal n.1) (numbers_of row.now) }
{
    let n = row.head.n;
    let k = row.head.k;
    let faults = row.head.faults.unwrap_or(0);
    let figures = row.figures;
    [
        Number {
            name: "n",
            number: n as u64,
        },
        Number {
            name: "k",
            number: k as u64,
        },
        Number {
            name: "faults",
            number: faults as u64,
        },
        Number {
            name: "trials",
            number: figures.trials,
        },
        Number {
            name: "bound",
            number: figures.bound,
        },
        Number {
            name: "longest",
            number: figures.longest,
        },
        Number {
            name: "least",
            number: figures.least,
        },
        Number {
            name: "mean_hundredths",
            number: figures.mean,
        },
        Number {
            name: "median",
            number: figures.median,
        },
        Number {
            name: "p90",
            number: figures.p90,
        },
        Number {
            name: "p99",
            number: figures.p99,
        },
        Number {
            name: "p999",
            number: figures.p999,
        },
        Number {
            name: "greatest",
            number: figures.greatest,
        },
    ]
}
