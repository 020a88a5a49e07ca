use super::*;

/// A text of ISLE, and its print at width 5.
const DECL: &[u8] = b"(decl foo (A) B)\n";

const BROKEN: &[u8] = b"(decl\n    foo\n    (A)\n    B\n)\n";

/// A text that is refused on its second line.
const REFUSED_TEXT: &[u8] = b"(decl f () T)\n(decl pure () T)\n";

const REASON: &[u8] = b"Unexpected token LParen";

const SHOWN: &[u8] = b"parse error: Unexpected token LParen\na.isle:2:12: (decl pure () T)\n\n";

#[test]
fn formats(rt: HostRuntime) {
    let mut into = [b'#'; 40];
    let answer = isle_c_format(rt.alloc(), DECL, 5, &mut into);
    assert_eq!(rt; answer.status, WRITTEN);
    assert_eq!(rt; &into[..answer.len], BROKEN);
}

#[test]
fn checks(rt: HostRuntime) {
    assert_eq!(rt; isle_c_check(rt.alloc(), DECL), ACCEPTED);
    assert_eq!(rt; isle_c_check(rt.alloc(), REFUSED_TEXT), REFUSED);
}

#[test]
fn tells_of_a_refusal(rt: HostRuntime) {
    let mut reason = [b'#'; 40];
    let mut place = Place {
        offset: 0,
        line: 0,
        column: 0,
        line_begin: 0,
        line_end: 0,
    };
    let answer = isle_c_refusal(rt.alloc(), REFUSED_TEXT, &mut reason, &mut place);
    assert_eq!(rt; answer.status, WRITTEN);
    assert_eq!(rt; &reason[..answer.len], REASON);
    assert_eq!(rt; (place.offset, place.line, place.column), (25, 2, 12));
    assert_eq!(rt; (place.line_begin, place.line_end), (14, 31));
}

#[test]
fn shows_a_refusal(rt: HostRuntime) {
    let mut into = [b'#'; 80];
    let answer = isle_c_diagnostic(rt.alloc(), b"a.isle", REFUSED_TEXT, &mut into);
    assert_eq!(rt; answer.status, WRITTEN);
    assert_eq!(rt; &into[..answer.len], SHOWN);
}

/// A text that is tidied, and its tidy text.
const UNTIDY_TEXT: &[u8] = b"(rule   (f x) ; why\n      x )";

const TIDY_TEXT: &[u8] = b"(rule   (f x) ; why\n        x)\n";

const UNMATCHED: &[u8] = b"unmatched ')'";

#[test]
fn tidies(rt: HostRuntime) {
    let mut into = [b'#'; 40];
    let answer = isle_c_tidy(rt.alloc(), UNTIDY_TEXT, &mut into);
    assert_eq!(rt; answer.status, WRITTEN);
    assert_eq!(rt; &into[..answer.len], TIDY_TEXT);
}

#[test]
fn tells_whether_a_text_is_tidy(rt: HostRuntime) {
    assert_eq!(rt; isle_c_is_tidy(rt.alloc(), TIDY_TEXT), ACCEPTED);
    assert_eq!(rt; isle_c_is_tidy(rt.alloc(), UNTIDY_TEXT), UNTIDY);
    assert_eq!(rt; isle_c_is_tidy(rt.alloc(), b"a)"), REFUSED);
}

#[test]
fn tells_why_a_text_is_not_tidied(rt: HostRuntime) {
    let mut reason = [b'#'; 40];
    let mut place = Place {
        offset: 0,
        line: 0,
        column: 0,
        line_begin: 0,
        line_end: 0,
    };
    let answer = isle_c_tidy_refusal(rt.alloc(), b"a\n b)", &mut reason, &mut place);
    assert_eq!(rt; answer.status, WRITTEN);
    assert_eq!(rt; &reason[..answer.len], UNMATCHED);
    assert_eq!(rt; (place.offset, place.line, place.column), (4, 2, 3));
}

/// Two files of one program, one behind the other: the rule's `x` has no definition.
const PROGRAM: &[u8] = b"(type A (primitive A))(decl f (A) A)(rule g (f y) x)";

const LENGTHS: [usize; 2] = [22, 30];

/// An error, `unknown-variable`, at offset 28 of file 1.
const FOUND: &[u8] = b"\x01\x01\x01\x10unknown-variable\x01\x1c\x14Unknown variable 'x'\x00";

#[test]
fn checks_a_program(rt: HostRuntime) {
    let mut into = [b'#'; 80];
    let answer = isle_c_check_program(rt.alloc(), PROGRAM, &LENGTHS, &mut into);
    assert_eq!(rt; answer.status, WRITTEN);
    assert_eq!(rt; &into[..answer.len], FOUND);
    let answer = isle_c_check_program(rt.alloc(), PROGRAM, &[22], &mut into);
    assert_eq!(rt; answer.status, BAD_LENGTHS);
}

/// No finding.
const NOTHING: &[u8] = b"\x01\x00";

/// A warning, `unused-pattern-variable`, at offset 25 of file 1.
const LINTED: &[u8] =
    b"\x01\x01\x00\x17unused-pattern-variable\x01\x19\x1bunused pattern variable 'y'\x00";

#[test]
fn lints_a_program(rt: HostRuntime) {
    let mut into = [b'#'; 80];
    let answer = isle_c_lint_program(rt.alloc(), PROGRAM, &LENGTHS, 1, &mut into);
    assert_eq!(rt; answer.status, WRITTEN);
    assert_eq!(rt; &into[..answer.len], LINTED);
    let answer = isle_c_lint_program(rt.alloc(), PROGRAM, &LENGTHS, 0, &mut into);
    assert_eq!(rt; answer.status, WRITTEN);
    assert_eq!(rt; &into[..answer.len], NOTHING);
}
