// What is held from line to line: the state of a list of ticks, the sheet, the load answers, the table of special
// registers, the log and the list of places.
use crate::case::Case;
use crate::cases::{arithmetic, asked, code, latency, retired, short_operands};
use crate::inputs::{Halfword, InBounds};
use crate::kind::Kind;
use crate::line::{Line, ToNumbers};
use crate::logs::{HeldLog, logged, reading};
use crate::numbers::{FromNumbers, Malformed};
use crate::places::HeldPlaces;
use crate::reports::Report;
use isa::{Decoded, ShortInstruction, Start};
use pipeline::PipelineCpu;
use pipeline::parts::{id_sources, load_use_hazard};
use sheet::Inputs;
use std::alloc::{AllocError, Global};
use std::convert::AsSlice;

#[derive(Drop)]
pub struct Held {
    state: PipelineCpu,
    sheet: Vec<u8>,
    answers: Vec<u32>,
    table: Vec<u32>,
    log: HeldLog,
    places: HeldPlaces,
}

// The first so many. `as`, here and in `put`, since the library has no `From` of 32 bits for `usize`.
pub fn first<T>(held: &[T], count: u32) -> Result<&[T], Malformed> {
    held.get(..count as usize).ok_or(Malformed)
}

// Puts a case's values behind its place, as many as have room there.
fn put<T: Copy, V: FromNumbers + AsSlice<T>>(
    held: &mut [T],
    case: Case<'_>,
) -> Result<bool, Malformed> {
    let (at, values): (u32, V) = case.input()?;
    if let Some(places) = held.get_mut(at as usize..) {
        let values = values.as_slice();
        let count = places.len().min(values.len());
        places[..count].copy_from_slice(&values[..count]);
    }
    Ok(false)
}

impl Held {
    // A start with all zeros, nothing but zeros else, and a log of no bytes.
    pub fn new(alloc: Global) -> Result<Held, AllocError> {
        Ok(Held {
            state: PipelineCpu::start(Start::zero()),
            sheet: vec![in alloc; 0; 20736]?,
            answers: vec![in alloc; 0; 4096]?,
            table: vec![in alloc; 0; 65600]?,
            log: HeldLog::new(alloc)?,
            places: HeldPlaces::new(alloc)?,
        })
    }

    // Writes what answers a line of text to an empty line, nothing where that is no case, and says whether there is an
    // answer: none where the case only has something held.
    pub fn reply(&mut self, text: &[u8], line: &mut Line) -> bool {
        self.answer(text, line).unwrap_or(true)
    }

    fn answer(&mut self, text: &[u8], line: &mut Line) -> Result<bool, Malformed> {
        let case = Case::new(text, line)?;
        match case.kind {
            Kind::Arithmetic => case.answer(arithmetic),
            Kind::Halfword => case.answer(|Halfword(half)| ShortInstruction::decode_short(half)),
            Kind::NormalOperands => case.answer(|InBounds(i)| Decoded::Normal(i).operands()),
            Kind::ShortOperands => case.answer(short_operands),
            Kind::Tick => case.answer(|(state, given)| PipelineCpu::tick(state, given)),
            Kind::Ask => case.answer(asked),
            Kind::Forwarded => case.answer(|(state, r)| PipelineCpu::forwarded(state, r)),
            Kind::Execute => case.answer(|(state, d, special)| PipelineCpu::execute_ex(
                state, d, special,
            )),
            Kind::Decode => case.answer(|(state, f)| PipelineCpu::decode_id(state, f)),
            Kind::Sources => case.answer(id_sources),
            Kind::MulDiv => case.answer(latency),
            Kind::Hazard => case.answer(|(d, a, b)| load_use_hazard(d, a, b)),
            Kind::Retire => case.answer(retired),
            Kind::Start => case.answer(PipelineCpu::start),
            Kind::HeldStart => self.start(case),
            Kind::HeldTick => self.tick(case),
            Kind::HeldState => self.show(case),
            Kind::HeldSheet => put::<u8, [u8; 256]>(self.sheet.as_mut_slice(), case),
            Kind::HeldAnswers => put::<u32, [u32; 64]>(self.answers.as_mut_slice(), case),
            Kind::HeldTable => put::<u32, [u32; 64]>(self.table.as_mut_slice(), case),
            Kind::Run => self.run(case, Report::run),
            Kind::Play => self.run(case, player::play),
            Kind::Preview => self.run(case, Report::preview),
            Kind::LoggedTick => case.try_answer(logged),
            Kind::HeldLog => self.begin_log(case),
            Kind::HeldLoggedTick => self.tick_logged(case),
            Kind::HeldLogBytes => case.try_answer(|at| self.log.bytes_at(at)),
            Kind::HeldRead => case.try_answer(|place| self.log.read(place)),
            Kind::Read => case.try_answer(reading),
            Kind::Trades => self.trades(case),
            Kind::HeldPlaces => case.try_answer(|at| self.places.entries_at(at)),
        }
    }

    fn start(&mut self, case: Case<'_>) -> Result<bool, Malformed> {
        self.state = PipelineCpu::start(case.input()?);
        Ok(false)
    }

    // One tick of the state held: its code, and what asking named before it.
    fn tick(&mut self, case: Case<'_>) -> Result<bool, Malformed> {
        let wanted = self.state.ask().unwrap_or_default();
        let ticked = self.state.tick(case.input()?);
        self.state = ticked.state;
        case.reply((code(ticked.outcome), wanted))
    }

    fn begin_log(&mut self, case: Case<'_>) -> Result<bool, Malformed> {
        self.log.begin(case.input()?)?;
        Ok(false)
    }

    // One tick that keeps the log held: its code, and the first free place then.
    fn tick_logged(&mut self, case: Case<'_>) -> Result<bool, Malformed> {
        let ticked = self.log.tick(self.state, case.input()?)?;
        self.state = ticked.state;
        case.reply((code(ticked.outcome), self.log.free))
    }

    // Where neighbours of the sheet held may trade places: the code and how many places the list held has now.
    fn trades(&mut self, case: Case<'_>) -> Result<bool, Malformed> {
        let (bytes, lent): (u32, (u32, u16)) = case.input()?;
        let sheet = first(self.sheet.as_slice(), bytes)?;
        let listed = self.places.list(sheet, lent)?;
        case.reply(listed)
    }

    fn show(&self, case: Case<'_>) -> Result<bool, Malformed> {
        let state = self.state;
        case.answer(|()| state)
    }

    // The first of what is held, so much of each, and a limit.
    fn inputs(
        &self,
        limit: u32,
        [bytes, answers, words]: [u32; 3],
    ) -> Result<Inputs<'_>, Malformed> {
        Ok(Inputs {
            sheet: first(self.sheet.as_slice(), bytes)?,
            answers: first(self.answers.as_slice(), answers)?,
            table: first(self.table.as_slice(), words)?,
            limit,
        })
    }

    // A run by the runner or by the panel, or a play: what a function makes of a beginning and of what is held.
    fn run<S: FromNumbers, R: ToNumbers, F>(
        &self,
        case: Case<'_>,
        run: F,
    ) -> Result<bool, Malformed>
    where
        F: FnOnce(S, Inputs<'_>) -> R,
        requires { F.IsAlwaysCallable run }
    {
        let (start, limit, lengths): (S, u32, [u32; 3]) = case.input()?;
        let report = run(start, self.inputs(limit, lengths)?);
        case.reply(report)
    }
}
