use cram::{Challenge, CramFault, Users, hmac_md5};
use std::alloc::Global;
use std::process::Abort;

const NAME: &str = "postoffice.reston.mci.net";

const MESSAGE: &[u8] = b"<1896.697170952@postoffice.reston.mci.net>";

const USERS: &[u8] = b"[users]\ntim = tanstaaftanstaaf\nann = other\n";

/// Makes the challenge whose text is the message.
fn example(rt: &impl Abort, alloc: Global) -> Challenge {
    Challenge::new(alloc, 1896, 697170952, NAME).expect(rt, "a challenge")
}

/// Says whether this message has this digest under this key.
fn has_digest(rt: &impl Abort, alloc: Global, key: &[u8], message: &[u8], digits: &str) -> bool {
    let found = hex::encode(alloc, &hmac_md5(key, message)).expect(rt, "memory");
    found.as_str() == digits
}

const COUNTED: [u8; 25] = [
    1, 2, 3, 4, 5, 6, 7, 8, 9, 10, 11, 12, 13, 14, 15, 16, 17, 18, 19, 20, 21, 22, 23, 24, 25,
];

// The vectors of RFC 2202, the first three of which are RFC 2104's too; RFC 2195's example; and what
// Python's `hmac` says of keys as long as a block, or nearly so.
static DIGESTS: [(&[u8], &[u8], &str); 13] = [
    (&[0x0b; 16], b"Hi There", "9294727a3638bb1c13f48ef8158bfc9d"),
    (
        b"Jefe",
        b"what do ya want for nothing?",
        "750c783e6ab0b503eaa86e310a5db738",
    ),
    (&[0xaa; 16], &[0xdd; 50], "56be34521d144c88dbb8c733f0e8b3f6"),
    (&COUNTED, &[0xcd; 50], "697eaf0aca3a3aea3a75164746ffaa79"),
    (
        &[0x0c; 16],
        b"Test With Truncation",
        "56461ef2342edc00f9bab995690efd4c",
    ),
    (
        &[0xaa; 80],
        b"Test Using Larger Than Block-Size Key - Hash Key First",
        "6b1ab7fe4bd7bf8f0b62e6ce61b9d0cd",
    ),
    (
        &[0xaa; 80],
        b"Test Using Larger Than Block-Size Key and Larger Than One Block-Size Data",
        "6f630fad67cda0ee1fb1f562db3aa53e",
    ),
    (
        b"tanstaaftanstaaf",
        MESSAGE,
        "b913a602c7eda7a495b4e6e7334d3890",
    ),
    (b"", b"", "74e6f7298a9c2d168935f58c001bad88"),
    (&[b'k'; 63], MESSAGE, "06bea325bc1004f13b5e3359773acf22"),
    (&[b'k'; 64], MESSAGE, "10e7df3c0008f45346ea432a3a954003"),
    (&[b'k'; 65], MESSAGE, "c26f650abcb485a907fa679a2807bdac"),
    (&[b'k'; 200], MESSAGE, "9c4918e089486d861286d6aa8979860d"),
];

#[test]
fn digests_messages(rt: HostRuntime) {
    let mut are_right = true;
    for (key, message, digits) in DIGESTS.iter() {
        are_right &= has_digest(&rt, rt.alloc(), key, message, digits);
    }
    assert!(rt; are_right);
}

/// Says whether this answer to the example's challenge lets in the user of this name.
fn is_let_in(rt: &impl Abort, alloc: Global, answer: &[u8], name: &[u8]) -> bool {
    let users = Users::read(alloc, USERS).expect(rt, "users");
    let user = example(rt, alloc).check(alloc, answer, &users);
    let user = user.expect(rt, "a user");
    user.name() == name && user.into_name().as_slice() == name
}

// RFC 2195's example, whose challenge is its message.
#[test]
fn checks_answers(rt: HostRuntime) {
    let alloc = rt.alloc();
    let is_message = example(&rt, alloc).text().as_bytes() == MESSAGE;
    let is_tim = is_let_in(&rt, alloc, b"tim b913a602c7eda7a495b4e6e7334d3890", b"tim");
    let is_ann = is_let_in(&rt, alloc, b"ann 128c3ed34fb58bde905f34df2e9968fe", b"ann");
    assert!(rt; is_message && is_tim && is_ann);
}

/// Says what refuses an answer to the example's challenge, if anything does.
fn fault_of(rt: &impl Abort, alloc: Global, answer: &[u8]) -> Option<CramFault> {
    let users = Users::read(alloc, USERS).expect(rt, "users");
    example(rt, alloc).check(alloc, answer, &users).err()
}

// Answers that are wrong in one place.
static WRONG: [(&[u8], CramFault); 17] = [
    (b"", CramFault::MalformedAnswer),
    (b"tim", CramFault::MalformedAnswer),
    (
        b"b913a602c7eda7a495b4e6e7334d3890",
        CramFault::MalformedAnswer,
    ),
    (
        b" b913a602c7eda7a495b4e6e7334d3890",
        CramFault::MalformedAnswer,
    ),
    (
        b"timb913a602c7eda7a495b4e6e7334d3890",
        CramFault::MalformedAnswer,
    ),
    (
        b"tim  b913a602c7eda7a495b4e6e7334d3890",
        CramFault::MalformedAnswer,
    ),
    (
        b"tim\tb913a602c7eda7a495b4e6e7334d3890",
        CramFault::MalformedAnswer,
    ),
    (
        b"ti m b913a602c7eda7a495b4e6e7334d3890",
        CramFault::MalformedAnswer,
    ),
    (
        b"tim B913a602c7eda7a495b4e6e7334d3890",
        CramFault::MalformedAnswer,
    ),
    (
        b"tim b913a602c7eda7a495b4e6e7334d389",
        CramFault::MalformedAnswer,
    ),
    (
        b"tim b913a602c7eda7a495b4e6e7334d38900",
        CramFault::MalformedAnswer,
    ),
    (
        b"tim b913a602c7eda7a495b4e6e7334d389g",
        CramFault::MalformedAnswer,
    ),
    (
        b"tom b913a602c7eda7a495b4e6e7334d3890",
        CramFault::UnknownUser,
    ),
    (
        b"tim b913a602c7eda7a495b4e6e7334d3891",
        CramFault::WrongPassword,
    ),
    (
        b"ann b913a602c7eda7a495b4e6e7334d3890",
        CramFault::WrongPassword,
    ),
    // ann's right answer under tim's name
    (
        b"tim 128c3ed34fb58bde905f34df2e9968fe",
        CramFault::WrongPassword,
    ),
    // the digest of the challenge whose nonce is 1897
    (
        b"tim b8be575f032472a623969235f13bf531",
        CramFault::WrongPassword,
    ),
];

#[test]
fn refuses_answers(rt: HostRuntime) {
    let mut are_refused = true;
    for (answer, fault) in WRONG.iter() {
        are_refused &= fault_of(&rt, rt.alloc(), answer) == Some(*fault);
    }
    assert!(rt; are_refused);
}

/// Makes the answer of a user with this password to the example's challenge.
fn answer_of(rt: &impl Abort, alloc: Global, name: &[u8], password: &[u8]) -> Vec<u8> {
    let digits = hex::encode(alloc, &hmac_md5(password, MESSAGE)).expect(rt, "memory");
    joined(rt, alloc, &[name, b" ", digits.as_bytes()])
}

/// Makes these bytes, one after another.
fn joined(rt: &impl Abort, alloc: Global, parts: &[&[u8]]) -> Vec<u8> {
    let mut all = Vec::new(alloc);
    for part in parts {
        all.extend_from_slice(part).expect(rt, "memory");
    }
    all
}

/// Says whether a file has a user of this name and password, and nobody else by that password.
fn has_user(rt: &impl Abort, alloc: Global, file: &[u8], name: &[u8], password: &[u8]) -> bool {
    let users = Users::read(alloc, file).expect(rt, "users");
    let challenge = example(rt, alloc);
    let answer = answer_of(rt, alloc, b"nobody", password);
    let nobody = challenge.check(alloc, answer.as_slice(), &users).err();
    let answer = answer_of(rt, alloc, name, password);
    let user = challenge.check(alloc, answer.as_slice(), &users);
    nobody == Some(CramFault::UnknownUser) && user.expect(rt, "a user").name() == name
}

// Each file with a user that it has.
static WITH_USERS: [(&[u8], &[u8], &[u8]); 12] = [
    (b"[users]\ntim = x\n", b"tim", b"x"),
    (b"[users]\ntim = x", b"tim", b"x"),
    (b"# all\r\n\r\n[users]\r\ntim = x\r\n", b"tim", b"x"),
    (b"\n \t\n#\n[users]\n# ann\nann=y\n\ntim=x\n", b"ann", b"y"),
    (b"[users]\ntim \t=\t  x y \n", b"tim", b"x y "),
    (b"[users]\nt\tim \t= x\n", b"t\tim", b"x"),
    (b"[users]\n\ttim = x\n", b"\ttim", b"x"),
    (b"[users]\ntim = a=b = c\n", b"tim", b"a=b = c"),
    (b"[users]\ntim==\n", b"tim", b"="),
    (b"[users]\n[users] = x\n", b"[users]", b"x"),
    (
        b"[users]\nt\x01\xff = \x80\x00\xfe\n",
        b"t\x01\xff",
        b"\x80\x00\xfe",
    ),
    (b"[users]\ntim = x\ry\r", b"tim", b"x\ry\r"),
];

#[test]
fn reads_users(rt: HostRuntime) {
    let mut are_read = true;
    for (file, name, password) in WITH_USERS.iter() {
        are_read &= has_user(&rt, rt.alloc(), file, name, password);
    }
    assert!(rt; are_read);
}

static WITHOUT_USERS: [&[u8]; 4] = [b"", b"[users]", b"\n\n", b"# none\r\n[users]\r\n"];

#[test]
fn reads_files_without_users(rt: HostRuntime) {
    let mut are_read = true;
    for file in WITHOUT_USERS.iter() {
        are_read &= Users::read(rt.alloc(), file).is_ok();
    }
    assert!(rt; are_read);
}

// Each file with its first line that breaks a rule.
static FAULTY: [(&[u8], usize); 17] = [
    (b"a = b", 1),
    (b"[users]\ntim = x\ntim = y", 3),
    (b"[users]\ntim = x\n\n# twice\n[users]\n", 5),
    (b"[users]\n[users]\n", 2),
    (b"\n\ntim = x\n[users]\n", 3),
    (b"[users]\ntim\n", 2),
    (b"[users]\nti m = x\n", 2),
    (b"[users]\n tim = x\n", 2),
    (b"[users]\nt\x00im = x\n", 2),
    (b"[users]\n = x\n", 2),
    (b"[users]\ntim = \n", 2),
    (b"[users]\ntim =", 2),
    (b" [users]\n", 1),
    (b"[users] \n", 1),
    (b"[USERS]\n", 1),
    (b" # no comment\n", 1),
    (b"[users]\r\ntim = x\r\nann\r\ntim = y\r\n", 3),
];

#[test]
fn refuses_lines(rt: HostRuntime) {
    let mut are_refused = true;
    for (file, line) in FAULTY.iter() {
        let fault = Users::read(rt.alloc(), file).err();
        are_refused &= fault == Some(CramFault::BadUsers(*line));
    }
    assert!(rt; are_refused);
}

/// Makes a users file of one user: the section's line, and `name = password` with no line feed after it.
fn file_of(rt: &impl Abort, alloc: Global, name: &[u8], password: &[u8]) -> Vec<u8> {
    joined(rt, alloc, &[b"[users]\n", name, b" = ", password])
}

/// Says what refuses a file with this user, if anything does.
fn file_fault(rt: &impl Abort, alloc: Global, name: &[u8], password: &[u8]) -> Option<CramFault> {
    let file = file_of(rt, alloc, name, password);
    Users::read(alloc, file.as_slice()).err()
}

/// Says what refuses an answer of the longest name and password, behind these bytes, to the example's challenge; or that
/// it lets in that name.
fn longest_fault(rt: &impl Abort, alloc: Global, front: &[u8]) -> Option<CramFault> {
    let letters = [b'k'; 255];
    let file = file_of(rt, alloc, &letters, &letters);
    let users = Users::read(alloc, file.as_slice()).expect(rt, "users");
    let digits: &[u8] = b" fb19044762ebfba52934bca1f141fa0f";
    let answer = joined(rt, alloc, &[front, letters.as_slice(), digits]);
    match example(rt, alloc).check(alloc, answer.as_slice(), &users) {
        Ok(user) => {
            assert!(rt; user.name() == letters.as_slice());
            None
        }
        Err(fault) => Some(fault),
    }
}

// A name and a password have at most 255 bytes.
#[test]
fn limits_lengths(rt: HostRuntime) {
    let alloc = rt.alloc();
    let letters = [b'k'; 256];
    let too_long = Some(CramFault::BadUsers(2));
    assert!(rt;
        file_fault(&rt, alloc, &letters, b"x") == too_long
            && file_fault(&rt, alloc, b"tim", &letters) == too_long
            && longest_fault(&rt, alloc, b"").is_none()
            && longest_fault(&rt, alloc, b"k") == Some(CramFault::MalformedAnswer)
    );
}

// The numbers of a challenge may be as large as they come, and the faults say nothing of a password.
#[test]
fn prints(rt: HostRuntime) {
    let alloc = rt.alloc();
    let challenge = Challenge::new(alloc, u64::MAX, 0, "r").expect(&rt, "a challenge");
    let fault = format!(in alloc; "{}", CramFault::BadUsers(3)).expect(&rt, "memory");
    let is_challenge = challenge.text() == "<18446744073709551615.0@r>";
    assert!(rt; is_challenge && fault.as_str() == "bad users file, line 3");
}
