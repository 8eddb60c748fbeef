ghost use Rattle.std.specs.Prelude.{◌≡◌};
ghost use Rattle.sheets.specs.Records.{said};
ghost use Rattle.sheet_turns.specs.Since.{UnderSetting, StillWaiting};
ghost use Rattle.sheet_turns.specs.Table.{table, does};

use crate::settings::Setting;
use sector::refusal::Refusal;
use sheets::records::Record;

// The state of a run: waiting for a setting, or running under one.
#[derive(Clone, Copy, Debug, PartialEq, Eq)]
pub enum Run {
    Waiting,
    Running(Setting),
}

// What a record does: it is answered at once, or it is a call that is put to the store.
#[derive(Clone, Copy, Debug, PartialEq, Eq)]
pub enum Effect<'a> {
    Answered(Result<(), Refusal>),
    Write { sector: u16, text: &'a [u8] },
    Read { sector: u16, length: u16 },
}

impl Run {
    // Takes a record, by the state and the record together.
    pub fn turn<'a>(&mut self, record: Record<'a>) -> Effect<'a>
        ensures { (self.new, does result) ≡ table self.old (said «record».entry) }
    {
        match (&mut *self, record) {
            (Run::Waiting, Record::Setting(values)) => match Setting::try_from(values) {
                Ok(setting) => {
                    *self = Run::Running(setting);
                    Effect::Answered(Ok(()))
                }
                Err(refusal) => Effect::Answered(Err(refusal)),
            },
            (Run::Running(_), Record::Write { sector, text, .. }) => Effect::Write { sector, text },
            (Run::Running(setting), Record::Read { sector }) => Effect::Read {
                sector,
                length: setting.length,
            },
            _ => Effect::Answered(Err(Refusal::OutOfTurn)),
        }
    }
}

// A run is under the first admitted setting and puts the writes and reads after it; with none it waits and puts nothing.
pub fn runs_begin_once()
    ensures under { UnderSetting }
    ensures waiting { StillWaiting }
{}
