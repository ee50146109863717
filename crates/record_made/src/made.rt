// Records that are made and looked at. `held` is the array that keeps one.
ghost use Rattle.std.specs.Prelude.{◌≡◌, ◌≤◌, length};
ghost use Rattle.byte_order.specs.Splice.{splice};
ghost use Rattle.writer.specs.Resume.{resumed};
ghost use Rattle.writer.specs.Shapes.{counted_resume_of};
ghost use Rattle.record_made.specs.RecordMade.{new_number, new_record, ResumeCall, counted_resume_places, counted_resume_numbers, ResumeCountedCall, stats_places, stats_numbers, StatsCall};

use answers::Refusal;
use answers::refusal::DONE;
use numbers::lent_numbers::{flag, put};
use numbers::words::number_at;
use reading::RefusedFile;
use record_numbers::places::{DATA_COUNT, FINISHED, RECORD};
use record_numbers::record_from_numbers::is_record;
use record_numbers::record_to_numbers::put_record;
use writer::resume::resumed_back;
use writer::{CAFWriter, CAFWriterStats, CountedResume};

const STATS_PLACES: usize = 2;

const RESUME_COUNTED_PLACES: usize = 3;

pub fn make(held: &mut [u64]) -> u32
    ensures { (result ≡ new_number held.old) × (held.new ≡ new_record held.old) }
{
    if held.len() != RECORD {
        return Refusal::BadWriter.number();
    }
    put_record(held, CAFWriter::new());
    DONE
}

pub fn resume(buf: &mut [u8], file_len: u64, held: &mut [u64], chunks: &mut [u64]) -> u32
    ensures { ResumeCall buf.old file_len held.old chunks.old (resumed buf.old file_len) result held.new chunks.new buf.new }
{
    if held.len() != RECORD {
        return Refusal::BadWriter.number();
    }
    if chunks.is_empty() {
        return Refusal::NoRoom.number();
    }
    let answer = CAFWriter::from_existing_file(buf, file_len as usize);
    put_record(held, resumed_back(answer));
    match answer {
        Ok(resumed) => {
            put(chunks, 0, &[resumed.chunks as u64]);
            DONE
        }
        Err(refused) => {
            put(chunks, 0, &[refused.chunks as u64]);
            refused.refusal.number()
        }
    }
}

fn tell_resume(out: &mut [u64], file_len: usize, outcome: Result<CountedResume, RefusedFile>) -> u32
    requires { counted_resume_places ≤ length out.old }
    ensures { (result ≡ (counted_resume_of file_len outcome).number) × (out.new ≡ splice out.old 0 (counted_resume_numbers (counted_resume_of file_len outcome))) }
{
    match outcome {
        Ok(done) => {
            put(
                out,
                0,
                &[done.stores as u64, done.file_len as u64, done.chunks as u64],
            );
            DONE
        }
        Err(refused) => {
            put(out, 0, &[0, file_len as u64, refused.chunks as u64]);
            refused.refusal.number()
        }
    }
}

pub fn resume_counted(buf: &mut [u8], file_len: u64, n: u64, out: &mut [u64]) -> u32
    ensures { ResumeCountedCall n buf.old file_len out.old result buf.new out.new }
{
    if out.len() < RESUME_COUNTED_PLACES {
        return Refusal::NoRoom.number();
    }
    let file_len = file_len as usize;
    tell_resume(
        out,
        file_len,
        CAFWriter::from_existing_file_counted(buf, file_len, n as usize),
    )
}

fn tell_stats(out: &mut [u64], stats: CAFWriterStats)
    requires { stats_places ≤ length out.old }
    ensures { out.new ≡ splice out.old 0 (stats_numbers stats) }
{
    put(out, 0, &[stats.data_count as u64, flag(stats.finished)]);
}

// No record is made for them.
#[tactic(auto, unfolding(record_numbers::specs::RecordNumbers::record_of))]
pub fn stats(held: &[u64], out: &mut [u64]) -> u32
    ensures { StatsCall held.now out.old result out.new }
{
    if out.len() < STATS_PLACES {
        return Refusal::NoRoom.number();
    }
    if !is_record(held) {
        return Refusal::BadWriter.number();
    }
    let stats = CAFWriterStats {
        data_count: number_at(held, DATA_COUNT) as usize,
        finished: number_at(held, FINISHED) == 1,
    };
    tell_stats(out, stats);
    DONE
}
