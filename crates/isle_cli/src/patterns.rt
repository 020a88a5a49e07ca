//! Patterns for names of files.

ghost use Rattle.std.specs.Prelude.{◌≡◌, map, string_bytes};
ghost use Rattle.isle_cli.specs.Patterns as Patterns;

/// Returns whether an entry of a program's list stands for a path, if its file exists: the entry
/// matches the path or a folder above it. `*` stands for any characters but `/`, and each other
/// character for itself.
pub fn covers(entry: &str, path: &str) -> bool
    ensures { result ≡ Patterns.covers entry.now path.now }
{
    fits(entry.as_bytes(), path.as_bytes(), true)
}

/// Returns whether one of the patterns leaves a path out of the folders above it: it matches the
/// path, or what follows a `/` in it. So `target` leaves out each file and folder of this name.
pub fn is_excluded(patterns: &[String], path: &str) -> bool
    ensures { result ≡ Patterns.is_excluded (map string_bytes patterns.now) path.now }
{
    for pattern in patterns {
        if excludes(pattern.as_bytes(), path.as_bytes()) {
            return true;
        }
    }
    false
}

/// Returns whether a pattern matches a path, or what follows a `/` in it.
fn excludes(pattern: &[u8], path: &[u8]) -> bool
    ensures { result ≡ Patterns.excludes pattern.now path.now }
{
    matches(pattern, path) || excludes_behind(pattern, path)
}

/// Returns whether a pattern matches what follows a `/` in a path.
fn excludes_behind(pattern: &[u8], path: &[u8]) -> bool
    ensures { result ≡ Patterns.excludes_behind pattern.now path.now }
{
    match path {
        [] => false,
        [first, rest @ ..] => {
            *first == b'/' && matches(pattern, rest) || excludes_behind(pattern, rest)
        }
    }
}

/// Returns whether a pattern matches a name.
fn matches(pattern: &[u8], name: &[u8]) -> bool
    ensures { result ≡ Patterns.matches pattern.now name.now }
{
    fits(pattern, name, false)
}

/// Returns whether a pattern matches a name, or with `below` a folder above it.
fn fits(pattern: &[u8], name: &[u8], below: bool) -> bool
    ensures { result ≡ Patterns.fits below pattern.now name.now }
{
    match (pattern, name) {
        ([], []) => true,
        ([], [first, ..]) => below && *first == b'/',
        ([b'*', after @ ..], [first, rest @ ..]) => {
            fits(after, name, below) || *first != b'/' && fits(pattern, rest, below)
        }
        ([b'*', after @ ..], []) => fits(after, name, below),
        ([byte, after @ ..], [first, rest @ ..]) => byte == first && fits(after, rest, below),
        ([_, ..], []) => false,
    }
}
