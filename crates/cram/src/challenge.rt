// A challenge and its check (RFC 2195).
use crate::answer::{DIGITS_LEN, are_equal, split_answer};
use crate::fault::CramFault;
use crate::hmac::hmac_md5;
use crate::users::{User, Users};
use std::alloc::Global;
use std::marker::Model;

/// A challenge: the text `<nonce.moment@name>`.
#[derive(Debug)]
pub struct Challenge {
    text: String,
}

impl Drop for Challenge {
    fn drop(self) {
        let Challenge { text: _ } = self;
    }
}

impl Model for Challenge {
    ghost use Rattle.std.specs.Prelude.{List, ℕ, string_bytes};

    ghost Value = { List ℕ };

    ghost view = { λ c. string_bytes c.text };
}

impl Challenge {
    ghost use Rattle.std.specs.Prelude.{◌≡◌, List, ℕ, IfOk, IfErr, MatchResult};
    ghost use Rattle.cram.specs.Answer.{IsAnswerFault, IsRightAnswer, challenge_text, digits_under};

    /// Makes the challenge of a server of that name. The nonce and the moment, both in decimal, are to make it one that
    /// was never sent before. The only fault is `NoMemory`.
    pub fn new(alloc: Global, nonce: u64, moment: u64, name: &str) -> Result<Challenge, CramFault>
        ensures text { IfOk result (λ challenge. challenge ≡ challenge_text nonce moment name.now) }
        ensures memory { IfErr result (λ fault. fault ≡ CramFault.NoMemory) }
    {
        let text = format!(in alloc; "<{nonce}.{moment}@{name}>")?;
        Ok(Challenge { text })
    }

    /// Gives what is sent to the client.
    pub fn text(&self) -> &str
        ensures { result.now ≡ self.now }
    {
        self.text.as_str()
    }

    /// Finds the user whose answer this is: the name, one space and the 32 lower-case hexadecimal digits of the
    /// challenge's HMAC-MD5 under the user's password. All digits are compared, wherever they differ. Of the faults the
    /// first of `CramFault` that holds is answered, but `BadUsers` never is.
    pub fn check(&self, alloc: Global, answer: &[u8], users: &Users) -> Result<User, CramFault>
        ensures right { IfOk result (λ user. IsRightAnswer self.now users.now answer.now user) }
        ensures accepts { (name : List ℕ) → IsRightAnswer self.now users.now answer.now name →
            MatchResult result (λ user. user ≡ name) (λ fault. fault ≡ CramFault.NoMemory) }
        ensures fault { IfErr result (λ fault. IsAnswerFault self.now users.now answer.now fault) }
    {
        let Some((name, digits)) = split_answer(answer) else {
            return Err(CramFault::MalformedAnswer);
        };
        let Some(password) = users.password_of(name) else {
            return Err(CramFault::UnknownUser);
        };
        if !are_equal(digits, &self.digits_under(password)) {
            return Err(CramFault::WrongPassword);
        }
        Ok(User::new(alloc, name)?)
    }

    /// Gives the lower-case hexadecimal digits of the HMAC-MD5 of the challenge's text under this password.
    fn digits_under(&self, password: &[u8]) -> [u8; DIGITS_LEN]
        ensures { result ≡ digits_under password.now self.now }
    {
        let digest = hmac_md5(password, self.text.as_bytes());
        let mut digits = [0; DIGITS_LEN];
        hex::encode_to_slice(&digest, &mut digits).unwrap();
        digits
    }
}
