use psa_words::WordsError;
use std::alloc::AllocGlobal;
use std::env;
use std::io::ErrorKind;
use std::rt::Env;

/// The words of the command line behind the program's name. They are bad where one is not UTF-8.
pub fn command_words<R: Env + AllocGlobal>(rt: &R) -> Result<Vec<String>, WordsError> {
    let given = match env::args(rt) {
        Ok(given) => given,
        Err(error) if error.kind() == ErrorKind::OutOfMemory => return Err(WordsError::Memory),
        Err(_) => return Err(WordsError::BadWords),
    };
    let mut words = Vec::new(rt.alloc());
    for word in given.skip(1) {
        if words.push(word).is_err() {
            return Err(WordsError::Memory);
        }
    }
    Ok(words)
}
