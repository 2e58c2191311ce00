// The moment that a clock told, as a word of a line.
ghost use Rattle.std.specs.Prelude.{◌≡◌};
ghost use Rattle.bt_words.specs.Moments.{are_two, is_date, is_moment as is_moment_of, is_time};

fn are_two(tens: u8, ones: u8) -> bool
    ensures { result ≡ are_two tens ones }
{
    tens.is_ascii_digit() && ones.is_ascii_digit()
}

/// Whether bytes are a date, `2026-12-01`.
fn is_date(word: &[u8]) -> bool
    ensures { result ≡ is_date word.now }
{
    match word {
        [y1, y2, y3, y4, h1, m1, m2, h2, d1, d2] => {
            are_two(*y1, *y2)
                && are_two(*y3, *y4)
                && *h1 == b'-'
                && are_two(*m1, *m2)
                && *h2 == b'-'
                && are_two(*d1, *d2)
        }
        _ => false,
    }
}

/// Whether bytes are a time of the day, `05:44:37Z`.
fn is_time(word: &[u8]) -> bool
    ensures { result ≡ is_time word.now }
{
    match word {
        [h1, h2, c1, m1, m2, c2, s1, s2, z] => {
            are_two(*h1, *h2)
                && *c1 == b':'
                && are_two(*m1, *m2)
                && *c2 == b':'
                && are_two(*s1, *s2)
                && *z == b'Z'
        }
        _ => false,
    }
}

/// Whether a word is a moment: a date and a time of the day to the second, as `2026-12-01T05:44:37Z`.
pub fn is_moment(word: &[u8]) -> bool
    ensures moment { result ≡ is_moment_of word.now }
{
    match word {
        [y1, y2, y3, y4, h1, m1, m2, h2, d1, d2, t, time @ ..] => {
            is_date(&[*y1, *y2, *y3, *y4, *h1, *m1, *m2, *h2, *d1, *d2])
                && *t == b'T'
                && is_time(time)
        }
        _ => false,
    }
}
