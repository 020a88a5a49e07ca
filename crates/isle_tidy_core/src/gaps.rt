//! The gap that blanks make.

ghost use Rattle.std.specs.Prelude.{◌≡◌, ◌==◌, ◌+◌, ◌<◌, ◌≤◌, ◌^◌, drop, length};
ghost use Rattle.std.specs.List.{prefix_len};
ghost use Rattle.isle_base.specs.Bytes.{line_feed};
ghost use Rattle.isle_base.specs.Skips.{begins_with, is_blank};
ghost use Rattle.isle_tidy_core.specs.Grammar.{blank_more as one_blank_more, gap_of as gap_with};
ghost use Rattle.isle_tidy_core.specs.Grammar.{line_more as one_line_more};
ghost use Rattle.isle_tidy_core.specs.Grammar.{space_more as one_space_more};
ghost use Rattle.isle_tidy_core.specs.Grammar.{tab_more as one_tab_more};
ghost use Rattle.isle_tidy_core.specs.Sizes.{size_of};

use isle_tidy_layout::entries::Gap;

fn space_more(gap: Gap) -> Gap
    requires { size_of gap + 1 < 2 ^ 64 }
    ensures { result ≡ one_space_more gap }
{
    match gap {
        Gap::Beside(width) => Gap::Beside(width + 1),
        Gap::Tabbed(width) => Gap::Tabbed(width + 1),
        Gap::Below(empty, column) => Gap::Below(empty, column + 1),
    }
}

fn tab_more(gap: Gap) -> Gap
    requires { size_of gap + 1 < 2 ^ 64 }
    ensures { result ≡ one_tab_more gap }
{
    match gap {
        Gap::Beside(width) => Gap::Tabbed(width + 1),
        Gap::Tabbed(width) => Gap::Tabbed(width + 1),
        Gap::Below(empty, column) => Gap::Below(empty, column + 1),
    }
}

fn line_more(gap: Gap) -> Gap
    requires { size_of gap + 1 < 2 ^ 64 }
    ensures { result ≡ one_line_more gap }
{
    match gap {
        Gap::Beside(_) | Gap::Tabbed(_) => Gap::Below(0, 0),
        Gap::Below(empty, _) => Gap::Below(empty + 1, 0),
    }
}

/// Adds a blank to a gap. A CR before a LF adds nothing, since the LF does.
fn blank_more(gap: Gap, blank: u8, before_feed: bool) -> Gap
    requires { size_of gap + 1 < 2 ^ 64 }
    ensures { result ≡ one_blank_more gap blank before_feed }
{
    if blank == b'\n' {
        line_more(gap)
    } else if blank == b'\r' {
        if before_feed { gap } else { line_more(gap) }
    } else if blank == b'\t' {
        tab_more(gap)
    } else {
        space_more(gap)
    }
}

fn is_feed_at(bytes: &[u8], at: usize) -> bool
    requires { at ≤ length bytes.now }
    ensures { result ≡ begins_with (λ b. b == line_feed) (drop at bytes.now) }
{
    at < bytes.len() && bytes[at] == b'\n'
}

/// Adds blanks to a gap.
pub(crate) fn gap_of(gap: Gap, blanks: &[u8]) -> Gap
    requires { size_of gap + length blanks.now + 1 < 2 ^ 64 }
    ensures { result ≡ gap_with gap blanks.now }
{
    let mut gap = gap;
    for at in 0..blanks.len() {
        gap = blank_more(gap, blanks[at], is_feed_at(blanks, at + 1));
    }
    gap
}
