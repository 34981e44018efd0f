// Where an answer is told, and where what is refused.
use crate::jobs::Job;
use ground::Refusal;
use std::io;
use std::io::Write;
use telling::grounds::tell_refusal;

// What is asked, the name that a refusal tells, standard output and standard error.
#[derive(Drop)]
pub(crate) struct Desk<'a, O, E> {
    pub job: Job,
    pub path: &'a [u8],
    pub out: &'a mut O,
    pub err: &'a mut E,
}

impl<O: Write, E: Write> Desk<'_, O, E> {
    // An answer to standard output, which may be closed or full: one cut short must not be taken for a whole one. Whether it is whole.
    pub(crate) fn tell_written<F: FnOnce(&mut O) -> io::Result<()>>(
        &mut self,
        tell: F,
    ) -> io::Result<bool>
        requires { F.IsAlwaysCallable tell }
    {
        let whole = tell(self.out).is_ok();
        if !whole {
            self.err
                .write_all(b"grackle: the answer could not be written whole\n")?;
        }
        Ok(whole)
    }

    // An answer to standard output, given.
    pub(crate) fn give<F: FnOnce(&mut O) -> io::Result<()>>(&mut self, tell: F) -> io::Result<bool>
        requires { F.IsAlwaysCallable tell }
    {
        self.tell_written(tell)?;
        Ok(true)
    }

    // A refusal; the lines of a check are its answer.
    pub(crate) fn refuse(&mut self, g: Refusal) -> io::Result<bool> {
        match self.job {
            Job::Check => tell_refusal(self.out, self.path, g)?,
            _ => tell_refusal(self.err, self.path, g)?,
        }
        Ok(false)
    }

    // A file that cannot be read, told as a refusal is.
    pub(crate) fn refuse_unread(&mut self) -> io::Result<bool> {
        match self.job {
            Job::Check => tell_unread(self.out, self.path)?,
            _ => tell_unread(self.err, self.path)?,
        }
        Ok(false)
    }
}

fn tell_unread<W: Write>(to: &mut W, path: &[u8]) -> io::Result<()> {
    to.write_all(path)?;
    to.write_all(b": there is no such file, or it cannot be read\n")
}
