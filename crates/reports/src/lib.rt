// The report of a check (document 02, point 9): which of a routine's statements are reported, a bit each. 128 bytes, so that a walk hands it on by value.
#![tactic(auto)]

ghost use Rattle.std.specs.Prelude.{◌^◌, ◌<◌, ◌≡◌};
ghost use Rattle.std.specs.Int.Bits.{bit_or};
ghost use Rattle.reports.specs.Reports.{no_words, bit_at, marked, marked_if, reported};

#[derive(Clone, Copy)]
pub struct Report {
    pub words: [u32; 32],
}

// Nothing is reported.
pub fn no_report() -> Report
    ensures { result.words ≡ no_words }
{
    Report { words: [0; 32] }
}

fn with_bit(word: u32, k: u32) -> u32
    requires { k < 32 }
    ensures { result ≡ bit_or word (2 ^ k) }
{
    word | (1 << k)
}

fn has_bit(word: u32, k: u32) -> bool
    requires { k < 32 }
    ensures { result ≡ bit_at k word }
{
    (word >> k) % 2 == 1
}

// Statement `at` is reported besides.
fn mark(report: Report, at: usize) -> Report
    requires { at < 1024 }
    ensures { result.words ≡ marked report.words at }
{
    let mut words = report.words;
    let i = at / 32;
    words[i] = with_bit(words[i], (at % 32) as u32);
    Report { words }
}

// Statement `at` is reported besides, where it is safe.
pub fn mark_if(report: Report, at: usize, safe: bool) -> Report
    requires { at < 1024 }
    ensures { result.words ≡ marked_if safe report.words at }
{
    if safe {
        return mark(report, at);
    }
    report
}

// Whether statement `at` is reported.
pub fn has(report: Report, at: usize) -> bool
    requires { at < 1024 }
    ensures { result ≡ reported report.words at }
{
    let words = report.words;
    let i = at / 32;
    has_bit(words[i], (at % 32) as u32)
}
