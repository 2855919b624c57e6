// The flow sheet that a program is given on its standard input: its bytes, and the job that it asks for.
#![tactic(auto)]

ghost use Rattle.std.specs.Prelude.{◌≤◌, ℕ, List, length, Ok, IfOk, IsOk};
ghost use Rattle.job.specs.declared.job.Job.{Job};
ghost use Rattle.layout.specs.Reading.{ReadExactly, answer_of};

use anyhow::anyhow;
use job::Job;
use std::io;
use std::io::Read;

// How many bytes are read: no sheet is longer than 626, so what lies past this many changes no answer.
pub const LENGTH: usize = 1024;

// Fills the buffer from standard input as far as it goes, and tells how far.
pub fn read_input(rt: &HostRuntime, buf: &mut [u8; LENGTH]) -> io::Result<usize>
    ensures { IfOk result (λ n. n ≤ 1024) }
{
    let mut input = rt.stdin();
    let mut len = 0;
    while len < LENGTH {
        let got = input.read(&mut buf[len..])?;
        if got == 0 {
            break;
        }
        len += got;
    }
    Ok(len)
}

// Does some work on the job of the sheet on standard input, which was so many bytes long. A sheet that is refused
// is told as "refused N at B", and is an error.
pub fn with_job<F: FnOnce(Job, usize) -> io::Result<()>>(
    rt: &HostRuntime,
    work: F,
) -> anyhow::Result<()>
    requires { F.IsAlwaysCallable work }
    ensures { IsOk result → ((bytes : List ℕ) × (job : Job) × ReadExactly bytes (answer_of (Ok job)) × F.post work job (length bytes) (Ok tt)) }
{
    let mut buf = [0u8; LENGTH];
    let len = read_input(rt, &mut buf)?;
    match layout::read(&buf[..len]) {
        Ok(job) => Ok(work(job, len)?),
        Err(fault) => {
            println!(rt; "refused {fault}")?;
            Err(anyhow!("refused"))
        }
    }
}
