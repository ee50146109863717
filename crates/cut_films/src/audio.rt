// The bytes and samples that a session is given. Every session has a run of bytes of its own, so that data of another one are seen.
ghost use Rattle.std.specs.Prelude.{◌≡◌, ◌<◌};
ghost use Rattle.cut_films.specs.Audio.{run_byte, run_sample, audio_of, samples_of};

pub(crate) const AUDIO: usize = 251;

fn audio_byte(session: usize, i: usize) -> u8
    ensures { result ≡ run_byte session i }
{
    ((i % 256 * 29 + session % 256 * 101 + 3) % 256) as u8
}

// The data of a session are the first bytes of its run.
pub(crate) fn audio(session: usize) -> [u8; AUDIO]
    ensures { result ≡ audio_of session }
{
    let mut out = [0u8; AUDIO];
    for (i, byte) in out.iter_mut().enumerate() {
        *byte = audio_byte(session, i);
    }
    out
}

// Three bytes of the run, from i on. Packing keeps the low 24 bits of a sample, so that it may go without a sign.
fn sample(session: usize, i: usize) -> i32
    requires { i < 256 }
    ensures { result ≡ run_sample session i }
{
    let high = audio_byte(session, i) as u32;
    let middle = audio_byte(session, i + 1) as u32;
    let low = audio_byte(session, i + 2) as u32;
    (high * 65536 + middle * 256 + low) as i32
}

// Bytes 5 to 10 of the run.
pub(crate) fn samples(session: usize) -> [i32; 2]
    ensures { result ≡ samples_of session }
{
    [sample(session, 5), sample(session, 8)]
}
