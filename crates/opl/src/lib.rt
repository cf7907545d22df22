// The C face: exported functions on numbers and byte slices, each a call of the crate that does the work.
// include/opl.h documents them for their callers.
#![tactic(auto)]

ghost use Rattle.std.specs.Prelude.{not, ◌<◌, eqb};
ghost use Rattle.ground.specs.Outcome.{Is, number_of};
ghost use Rattle.bits.specs.Lists.{Below};
ghost use Rattle.description.specs.Word.{reading};
ghost use Rattle.description.specs.Form1.{writing};
ghost use Rattle.encapsulation.specs.Writing.{written as payloadWritten};
ghost use Rattle.payload.specs.Answers.{read_into};
ghost use Rattle.ip_write.specs.Writing.{written as ipWritten};
ghost use Rattle.ip_open.specs.Opening.{dropping};
ghost use Rattle.ip_read.specs.Reading.{read_into as ipReadInto};
ghost use Rattle.turbo.specs.Encode.{encoded};
ghost use Rattle.placement.specs.Place.{placing};
ghost use Rattle.mixer.specs.Mixing.{mixing};
ghost use Rattle.profile.specs.Lent.{profiling};
ghost use Rattle.pipe.specs.Piping.{piping};
ghost use Rattle.preamble.specs.Preamble.{written};
ghost use Rattle.preamble_form.specs.Forms.{form_into};

use ground::refusal::status;

// The start-of-frame preamble into 32 bytes: upright for 0, inverted for any other number.
#[unsafe(no_mangle)]
pub extern "C" fn opl_preamble(inverted: u8, out: &mut [u8]) -> u8
    ensures { Is (written (not (eqb inverted 0)) out.old) result out.new }
{
    status(preamble::write(inverted != 0, out))
}

// Which of the two preambles 32 bytes are, if any, into one byte.
#[unsafe(no_mangle)]
pub extern "C" fn opl_preamble_form(bytes: &[u8], form: &mut [u8]) -> u8
    ensures { Is (form_into bytes.now form.old) result form.new }
{
    status(preamble_form::tell_into(bytes, form))
}

// The signalling word of a sheet into 96 bytes.
#[unsafe(no_mangle)]
pub extern "C" fn opl_signalling_write(sheet: &[u8], word: &mut [u8]) -> u8
    ensures { Is (writing sheet.now word.old) result word.new × Below 256 sheet.now }
{
    status(to_word::write(sheet, word))
}

// A signalling word of 96 bytes read into the front of a sheet of 128 bytes or more.
#[unsafe(no_mangle)]
pub extern "C" fn opl_signalling_read(word: &[u8], sheet: &mut [u8]) -> u8
    ensures { Is (number_of (reading word.now sheet.old)) result sheet.new × Below 256 word.now }
{
    status(to_sheet::read(word, sheet))
}

// A payload word of stream type 0, 1 or 2 into 1,536 bytes.
#[unsafe(no_mangle)]
pub extern "C" fn opl_payload_write(
    kind: u32,
    id: u8,
    count: u32,
    payload: &[u8],
    null: &[u8],
    word: &mut [u8],
) -> u8
    ensures { Is (payloadWritten kind id count payload.now null.now word.old) result word.new × (id < 256) }
{
    status(encapsulation::write(kind, id, count, payload, null, word))
}

// The header of a payload word into 16 bytes.
#[unsafe(no_mangle)]
pub extern "C" fn opl_payload_read(word: &[u8], header: &mut [u8]) -> u8
    ensures { Is (read_into word.now header.old) result header.new }
{
    status(payload::read_into(word, header))
}

// The next word of an IP stream, from the packets that wait, into 1,536 bytes, and how much of the queue is done with into 8.
#[unsafe(no_mangle)]
pub extern "C" fn opl_ip_write(
    id: u8,
    sent: u32,
    queue: &[u8],
    word: &mut [u8],
    progress: &mut [u8],
) -> u8
    ensures { Is (ipWritten id sent queue.now word.old progress.old) result (word.new, progress.new) × (id < 256) }
{
    status(ip_write::write(id, sent, queue, word, progress))
}

// The next word of an IP stream, with the memory of the open packet: whole packets to the front of packets, and the header into 16 bytes.
#[unsafe(no_mangle)]
pub extern "C" fn opl_ip_read(
    word: &[u8],
    memory: &mut [u8],
    packets: &mut [u8],
    header: &mut [u8],
) -> u8
    ensures { Is (ipReadInto word.now memory.old packets.old header.old) result (memory.new, packets.new, header.new) }
{
    status(ip_read::read(word, memory, packets, header))
}

// A word of an IP stream was lost: the memory of the open packet holds none afterwards.
#[unsafe(no_mangle)]
pub extern "C" fn opl_ip_lost(memory: &mut [u8]) -> u8
    ensures { Is (dropping memory.old) result memory.new }
{
    status(ip_open::lost(memory))
}

// An infoword of 1,536 or 96 bytes turbo-encoded under a pattern.
#[unsafe(no_mangle)]
pub extern "C" fn opl_encode(pattern: u32, infoword: &[u8], codeword: &mut [u8]) -> u8
    ensures { Is (encoded pattern infoword.now codeword.old) result codeword.new }
{
    status(turbo::encode(pattern, infoword, codeword))
}

// One received value for each code bit to the lane's places.
#[unsafe(no_mangle)]
pub extern "C" fn opl_place(pattern: u32, values: &[i8], lane: &mut [i16]) -> u8
    ensures { Is (placing pattern values.now lane.old) result lane.new }
{
    status(placement::place(pattern, values, lane))
}

// A codeword mixed into as many bytes.
#[unsafe(no_mangle)]
pub extern "C" fn opl_mix(pattern: u32, codeword: &[u8], mixed: &mut [u8]) -> u8
    ensures { Is (mixing pattern codeword.now mixed.old) result mixed.new }
{
    status(mixer::mix(pattern, codeword, mixed))
}

// The disperser's profile of a pipe into 33 numbers: the receiver's 32 tap lengths and the greatest delay.
#[unsafe(no_mangle)]
pub extern "C" fn opl_profile(pipe: &[u8], profile: &mut [u16]) -> u8
    ensures { Is (profiling pipe.now profile.old) result profile.new }
{
    status(profile::write(pipe, profile))
}

// One frame of a pipe from its codewords, with the memory of the frames before it.
#[unsafe(no_mangle)]
pub extern "C" fn opl_pipe(
    pipe: &[u8],
    frame: u32,
    codewords: &[u8],
    memory: &mut [u8],
    out: &mut [u8],
) -> u8
    ensures { Is (piping pipe.now frame codewords.now memory.old out.old) result (memory.new, out.new) × Below 256 codewords.now }
{
    status(pipe::write(pipe, frame, codewords, memory, out))
}
