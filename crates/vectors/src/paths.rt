use byte_string::ByteString;
use std::alloc::Global;
use std::cmp::Ordering;
use std::collections::BTreeMap;
use std::process::Abort;
use svnpath::{
    DEPTH_LIMIT, Path, PathFault, RepositoryUrl, by_text, pairs_by_text, root_url, sort_by_text,
};

/// Reads a path from its text.
fn parsed(rt: &impl Abort, alloc: Global, text: &str) -> Path {
    Path::parse(alloc, text.as_bytes()).expect(rt, "a path")
}

/// Says whether a path has this text.
fn has_text(rt: &impl Abort, alloc: Global, path: &Path, wanted: &str) -> bool {
    let mut text = Vec::new(alloc);
    path.append_text(&mut text).expect(rt, "memory");
    text.as_slice() == wanted.as_bytes()
}

/// Says whether the answer is the path of this text, or this fault.
fn is_answer(
    rt: &impl Abort,
    alloc: Global,
    answer: Result<Path, PathFault>,
    wanted: Result<&str, PathFault>,
) -> bool {
    match (&answer, wanted) {
        (Ok(path), Ok(wanted)) => has_text(rt, alloc, path, wanted),
        (Err(fault), Err(wanted)) => *fault == wanted,
        _ => false,
    }
}

/// A text, and the path that it names, or why it names none.
type Row = (&'static [u8], Result<&'static str, PathFault>);

/// URLs, and what each names in the repository `r`.
static URLS: [Row; 22] = [
    (b"svn://h/r/trunk", Ok("/trunk")),
    (b"svn://h/r", Ok("/")),
    (b"svn://h/r/", Ok("/")),
    (b"svn+ssh://h/r/a%20b", Ok("/a b")),
    (b"svn://alice@h:3691/r/a/b/?q#f", Ok("/a/b")),
    (b"SVN://h/%72/c", Ok("/c")),
    (b"svn://h/r/a/../b%25", Ok("/b%")),
    (b"svn://h/q/x", Err(PathFault::NotThisRepository)),
    (b"svn://h/q//x", Err(PathFault::NotThisRepository)),
    (b"svn://h/R", Err(PathFault::NotThisRepository)),
    (b"svn://h", Err(PathFault::NotThisRepository)),
    (b"svn://h/r/..", Err(PathFault::NotThisRepository)),
    (b"svn:r/x", Err(PathFault::NotThisRepository)),
    (b"http://h/r", Err(PathFault::NotThisRepository)),
    (b"/r/x", Err(PathFault::NotThisRepository)),
    (b"svn://h/r//a", Err(PathFault::EmptyComponent)),
    (b"svn://h/r//", Err(PathFault::EmptyComponent)),
    (b"svn://h/r/a%2Fb", Err(PathFault::ForbiddenComponent)),
    (b"svn://h/r/a%00", Err(PathFault::ForbiddenComponent)),
    (b"svn://h/r/%0A", Err(PathFault::ForbiddenComponent)),
    (b"svn://h/r/%FF", Err(PathFault::ForbiddenComponent)),
    (b"svn://h/r/\xFF", Err(PathFault::NotThisRepository)),
];

#[test]
fn reads_urls(rt: HostRuntime) {
    let mut are_read = true;
    for (url, wanted) in URLS.iter() {
        let answer = Path::from_url(rt.alloc(), url, "r");
        are_read &= is_answer(&rt, rt.alloc(), answer, *wanted);
    }
    assert!(rt; are_read);
}

/// Says whether this URL's root is this one, read alone and with the path.
fn has_root(rt: &impl Abort, alloc: Global, url: &[u8], wanted: &[u8]) -> bool {
    let root = root_url(alloc, url, "r").expect(rt, "a root");
    let named = RepositoryUrl::read(alloc, url, "r").expect(rt, "a URL");
    root.as_slice() == wanted && named.root == root
}

static ROOTS: [(&[u8], &[u8]); 8] = [
    (b"svn://h/r/trunk", b"svn://h/r"),
    (b"svn://h/r/", b"svn://h/r"),
    (b"svn+ssh://alice@h:22/r/a%20b?q", b"svn+ssh://alice@h:22/r"),
    (b"svn://host:03690/r/x", b"svn://host:03690/r"),
    (b"SVN://h/%72", b"SVN://h/%72"),
    (b"SVN://h/%72/c//..", b"SVN://h/%72"),
    (b"SVN://h:022/q/../r/a", b"svn://h:22/r"),
    (b"svn://h/./r/a", b"svn://h/r"),
];

#[test]
fn tells_root_urls(rt: HostRuntime) {
    let mut are_told = root_url(rt.alloc(), b"no url", "r").is_err();
    for (url, wanted) in ROOTS.iter() {
        are_told &= has_root(&rt, rt.alloc(), url, wanted);
    }
    assert!(rt; are_told);
}

static PARSED: [Row; 14] = [
    (b"/", Ok("/")),
    (b"/a/b", Ok("/a/b")),
    (b"/...", Ok("/...")),
    (b"/a%20", Ok("/a%20")),
    (b"", Err(PathFault::ForbiddenComponent)),
    (b"a", Err(PathFault::ForbiddenComponent)),
    (b"/a/", Err(PathFault::EmptyComponent)),
    (b"//", Err(PathFault::EmptyComponent)),
    (b"/./a//", Err(PathFault::ForbiddenComponent)),
    (b"/a//..", Err(PathFault::EmptyComponent)),
    (b"/..", Err(PathFault::ForbiddenComponent)),
    (b"/a\0", Err(PathFault::ForbiddenComponent)),
    (b"/a\nb", Err(PathFault::ForbiddenComponent)),
    (b"/\xC3", Err(PathFault::ForbiddenComponent)),
];

#[test]
fn parses_texts(rt: HostRuntime) {
    let mut are_parsed = true;
    for (text, wanted) in PARSED.iter() {
        let answer = Path::parse(rt.alloc(), text);
        are_parsed &= is_answer(&rt, rt.alloc(), answer, *wanted);
    }
    assert!(rt; are_parsed);
}

/// Texts, and what they are joined to `/p`.
static JOINED: [Row; 9] = [
    (b"", Ok("/p")),
    (b"/", Ok("/p")),
    (b"//", Ok("/p")),
    (b"a/b", Ok("/p/a/b")),
    (b"/a", Ok("/p/a")),
    (b"a/", Ok("/p/a")),
    (b"a//b", Err(PathFault::EmptyComponent)),
    (b"///", Err(PathFault::EmptyComponent)),
    (b"a/..", Err(PathFault::ForbiddenComponent)),
];

#[test]
fn joins_relative_texts(rt: HostRuntime) {
    let path = parsed(&rt, rt.alloc(), "/p");
    let mut are_joined = true;
    for (text, wanted) in JOINED.iter() {
        let answer = path.join(rt.alloc(), text);
        are_joined &= is_answer(&rt, rt.alloc(), answer, *wanted);
    }
    assert!(rt; are_joined);
}

/// Writes a slash and this letter, so many times over.
fn letters(rt: &impl Abort, alloc: Global, letter: u8, count: usize) -> Vec<u8> {
    [b'/', letter].repeat(alloc, count).expect(rt, "memory")
}

/// Says how many components a path has, or why there is none.
fn depth(answer: Result<Path, PathFault>) -> Result<usize, PathFault> {
    match answer {
        Ok(path) => Ok(path.len()),
        Err(fault) => Err(fault),
    }
}

/// Says what joining this text to the path of 64 names is, by the depth of the answer.
fn depth_joined(rt: &impl Abort, alloc: Global, text: &[u8]) -> Result<usize, PathFault> {
    let deep = letters(rt, alloc, b'd', 64);
    let path = Path::parse(alloc, deep.as_slice()).expect(rt, "a path");
    depth(path.join(alloc, text))
}

// A name may have 255 bytes, and no more.
#[test]
fn keeps_the_limit_of_names(rt: HostRuntime) {
    let mut long = [b'n'; 257];
    long[0] = b'/';
    let longest = depth(Path::parse(rt.alloc(), &long[..256]));
    let too_long = depth(Path::parse(rt.alloc(), &long));
    assert!(rt; longest == Ok(1) && too_long == Err(PathFault::TooLong));
}

// A path may have 64 names, and no more.
#[test]
fn keeps_the_limit_of_paths(rt: HostRuntime) {
    let alloc = rt.alloc();
    let deep = letters(&rt, alloc, b'd', 65);
    let too_deep = depth(Path::parse(alloc, deep.as_slice()));
    assert!(rt;
        too_deep == Err(PathFault::TooDeep)
            && depth_joined(&rt, alloc, b"") == Ok(DEPTH_LIMIT)
            && depth_joined(&rt, alloc, b"d") == Err(PathFault::TooDeep)
            && depth_joined(&rt, alloc, b"..") == Err(PathFault::ForbiddenComponent)
    );
}

/// Says whether the child's parent is the root, which has none.
fn has_parent(rt: &impl Abort, alloc: Global, root: &Path, a: &Path) -> bool {
    let above = a.parent(alloc).expect(rt, "memory");
    let none = root.parent(alloc).expect(rt, "memory");
    above.is_some_and(|above| above == *root) && none.is_none()
}

/// Says whether the grandchild is moved to the root's child by taking the child out.
fn is_moved(rt: &impl Abort, alloc: Global, root: &Path, a: &Path, below: &Path) -> bool {
    if !below.is_at_or_under(a) {
        return false;
    }
    let moved = below.rebased(alloc, a, root).expect(rt, "memory");
    has_text(rt, alloc, &moved, "/b")
}

/// Says whether the grandchild lies under the child, and not the other way round.
fn is_under(a: &Path, below: &Path) -> bool {
    below.is_at_or_under(a)
        && below.is_at_or_under(below)
        && !a.is_at_or_under(below)
        && a.cmp(below) == Ordering::Less
}

// The root, its child and its grandchild.
#[test]
fn serves_trees(rt: HostRuntime) {
    let alloc = rt.alloc();
    let root = Path::root(alloc);
    let a = parsed(&rt, alloc, "/a");
    let below = a.join(alloc, b"b").expect(&rt, "a path");
    let copy = below.clone().expect(&rt, "memory");
    assert!(rt;
        root.is_root()
            && !a.is_root()
            && has_parent(&rt, alloc, &root, &a)
            && is_under(&a, &below)
            && is_moved(&rt, alloc, &root, &a, &below)
            && copy == below
    );
}

/// Makes a name.
fn name(rt: &impl Abort, alloc: Global, text: &[u8]) -> ByteString {
    ByteString::from_slice(alloc, text).expect(rt, "memory")
}

#[test]
fn names_children(rt: HostRuntime) {
    let alloc = rt.alloc();
    let bytes = name(&rt, alloc, b"a");
    let a = Path::root(alloc).child(alloc, name(&rt, alloc, b"a"));
    let a = a.expect(&rt, "a path");
    let names = a.components();
    let is_named = names.len() == 1 && names[0].as_slice() == b"a".as_slice();
    assert!(rt; bytes.as_slice() == b"a".as_slice() && is_named);
}

/// Says whether the entries are the paths of these texts in turn, each with its text.
fn is_listed(
    rt: &impl Abort,
    alloc: Global,
    listed: &[(&Path, &&'static str)],
    texts: &[&str],
) -> bool {
    let mut is_right = listed.len() == texts.len();
    for ((path, value), wanted) in listed.iter().zip(texts) {
        is_right = is_right && has_text(rt, alloc, path, wanted) && **value == *wanted;
    }
    is_right
}

static TEXTS: [&str; 6] = ["/a.b", "/", "/ab", "/a/b", "/a", "/a-b"];

static BY_TEXT: [&str; 6] = ["/", "/a", "/a-b", "/a.b", "/a/b", "/ab"];

static BY_COMPONENTS: [&str; 6] = ["/", "/a", "/a/b", "/a-b", "/a.b", "/ab"];

/// Makes a map from the path of each of `TEXTS` to that text.
fn new_map(rt: &impl Abort, alloc: Global) -> BTreeMap<Path, &'static str> {
    let mut map = BTreeMap::new(alloc);
    for text in TEXTS.iter() {
        let told: Result<_, _> = map.insert(parsed(rt, alloc, text), *text);
        assert!(rt; told.is_ok());
    }
    map
}

/// Makes a list of the paths of `TEXTS`, in the order they have there, each with its text.
fn new_pairs(rt: &impl Abort, alloc: Global) -> Vec<(Path, &'static str)> {
    let mut pairs = Vec::new(alloc);
    for text in TEXTS.iter() {
        pairs
            .push((parsed(rt, alloc, text), *text))
            .expect(rt, "memory");
    }
    pairs
}

#[test]
fn sorts_by_the_bytes_of_texts(rt: HostRuntime) {
    let alloc = rt.alloc();
    let map = new_map(&rt, alloc);
    let mut found = map.iter().collect::<Vec<_>>(alloc).expect(&rt, "memory");
    let is_sorted = is_listed(&rt, alloc, found.as_slice(), &BY_COMPONENTS);
    sort_by_text(&mut found).expect(&rt, "memory");
    assert!(rt; is_sorted && is_listed(&rt, alloc, found.as_slice(), &BY_TEXT));
}

#[test]
fn lists_a_map_by_the_bytes_of_texts(rt: HostRuntime) {
    let alloc = rt.alloc();
    let map = new_map(&rt, alloc);
    let listed = by_text(alloc, &map).expect(&rt, "memory");
    assert!(rt; is_listed(&rt, alloc, listed.as_slice(), &BY_TEXT));
}

#[test]
fn lists_pairs_by_the_bytes_of_texts(rt: HostRuntime) {
    let alloc = rt.alloc();
    let pairs = new_pairs(&rt, alloc);
    let listed = pairs_by_text(alloc, pairs.as_slice()).expect(&rt, "memory");
    assert!(rt; is_listed(&rt, alloc, listed.as_slice(), &BY_TEXT));
}

/// Says whether these texts are in this order, and in the other one the other way round.
fn is_ordered(rt: &impl Abort, alloc: Global, mine: &str, theirs: &str, wanted: Ordering) -> bool {
    let mine = parsed(rt, alloc, mine);
    let theirs = parsed(rt, alloc, theirs);
    mine.text_cmp(&theirs) == wanted && theirs.text_cmp(&mine) == wanted.reverse()
}

static ORDERED: [(&str, &str, Ordering); 7] = [
    ("/", "/", Ordering::Equal),
    ("/", "/a", Ordering::Less),
    ("/a/b", "/a/b", Ordering::Equal),
    ("/a/b", "/a", Ordering::Greater),
    ("/a/b", "/a-b", Ordering::Greater),
    ("/a/b", "/a0", Ordering::Less),
    ("/a/z", "/ab/c", Ordering::Less),
];

#[test]
fn compares_texts(rt: HostRuntime) {
    let mut are_ordered = true;
    for (mine, theirs, wanted) in ORDERED.iter() {
        are_ordered &= is_ordered(&rt, rt.alloc(), mine, theirs, *wanted);
    }
    assert!(rt; are_ordered);
}
