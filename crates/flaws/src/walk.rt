// A walk over a script's JSON, to what is wrong with it.

use crate::flaw::{Flaw, ScriptPart, Wrong};
use json::{Reader, Token};
use limits::{MAX_DEPTH, MAX_LOOPS, MAX_SCRIPT_MODULES, MAX_SCRIPT_STEPS, MAX_WORKERS};
use script::ScriptFault;
use std::alloc::Global;

/// How many keys a script has, and a loop of it.
const KEYS: usize = 4;

const SCRIPT_KEYS: [&str; KEYS] = ["modules", "loops", "workers", "steps"];

const LOOP_KEYS: [&str; KEYS] = ["module", "fuel", "work_fuel", "depth"];

const WHOLE: &str = "a whole number";

/// The greatest number of a loop, a worker, an async or a request.
const WORD: u64 = u32::MAX as u64;

/// What a number is of, and where it has to lie.
#[derive(Clone, Copy)]
struct Bounds {
    name: &'static str,
    least: u64,
    most: u64,
}

const DEPTH: Bounds = Bounds {
    name: "depth",
    least: 1,
    most: MAX_DEPTH as u64,
};

const WORKERS: Bounds = Bounds {
    name: "workers",
    least: 0,
    most: MAX_WORKERS as u64,
};

/// What a number is, as a script takes it.
#[derive(Clone, Copy)]
enum Number {
    /// Whole, and not negative.
    Unsigned(u64),
    /// Whole and negative.
    Negative,
    /// None that is taken.
    Other,
}

/// What the numbers of a step are of: the first, and the second where there is one.
#[derive(Clone, Copy)]
struct Names {
    first: &'static str,
    second: Option<&'static str>,
}

impl Bounds {
    fn to(name: &'static str, most: u64) -> Bounds {
        Bounds {
            name,
            least: 0,
            most,
        }
    }

    fn has(self, number: Number) -> bool {
        match number {
            Number::Unsigned(number) => number >= self.least && number <= self.most,
            Number::Negative | Number::Other => false,
        }
    }
}

impl Names {
    fn count(self) -> usize {
        if self.second.is_some() { 2 } else { 1 }
    }

    fn at(self, index: usize) -> Option<&'static str> {
        match index {
            0 => Some(self.first),
            1 => self.second,
            _ => None,
        }
    }
}

fn number_of(text: &str) -> Number {
    if let Ok(number) = text.parse::<u64>() {
        return Number::Unsigned(number);
    }
    match text.parse::<i64>() {
        Ok(number) if number < 0 => Number::Negative,
        _ => Number::Other,
    }
}

/// What the numbers of a step of this name are of.
fn names_of(step: &str) -> Option<Names> {
    let (first, second) = match step {
        "loop" | "post" | "collect" => ("loop", None),
        "take" | "start" | "finish" => ("worker", None),
        "send" => ("loop", Some("async")),
        "cancel" => ("loop", Some("request")),
        "clock" => ("loop", Some("time")),
        _ => return None,
    };
    Some(Names { first, second })
}

/// Where a number of a step has to lie that is of this.
fn bounds_of(name: &'static str) -> Bounds {
    match name {
        "time" => Bounds::to(name, u64::MAX),
        _ => Bounds::to(name, WORD),
    }
}

/// The key, and its number among these.
fn find_key(keys: [&'static str; KEYS], key: &str) -> Option<(usize, &'static str)> {
    for (index, name) in keys.iter().enumerate() {
        if *name == key {
            return Some((index, *name));
        }
    }
    None
}

/// The first key that is not seen.
fn first_missing(keys: [&'static str; KEYS], seen: &[bool; KEYS]) -> Option<&'static str> {
    for (name, is_seen) in keys.iter().zip(seen.iter()) {
        if !*is_seen {
            return Some(*name);
        }
    }
    None
}

/// A walk that looks for one fault.
#[derive(Drop)]
pub struct Walk<'a> {
    pub alloc: Global,
    pub reader: Reader<'a>,
    pub fault: ScriptFault,
    /// How many modules there are, once that is known.
    pub modules: Option<u64>,
    /// How many bytes the text has: no list has more items.
    pub room: usize,
}

impl<'a> Walk<'a> {
    fn next(&mut self) -> Token<'a> {
        self.reader.next().unwrap_or(Token::Bad)
    }

    /// Begins a list or an object.
    fn begin(
        &mut self,
        part: ScriptPart,
        name: Option<&'static str>,
        is_list: bool,
    ) -> Result<(), Flaw<'a>> {
        let at = self.reader.offset();
        let found = self.next();
        match found {
            Token::BeginArray if is_list => Ok(()),
            Token::BeginObject if !is_list => Ok(()),
            _ => {
                let wanted = if is_list { "an array" } else { "an object" };
                Err(Flaw::wanted(at, part, name, wanted, found))
            }
        }
    }

    /// The text of a number, and what it is.
    fn text(
        &mut self,
        part: ScriptPart,
        name: &'static str,
    ) -> Result<(&'a str, Number), Flaw<'a>> {
        let at = self.reader.offset();
        let found = self.next();
        let Token::Number(text) = found else {
            return Err(Flaw::wanted(at, part, Some(name), WHOLE, found));
        };
        match number_of(text) {
            Number::Other => Err(Flaw::wanted(at, part, Some(name), WHOLE, found)),
            number => Ok((text, number)),
        }
    }

    /// A number within its bounds.
    fn number(&mut self, part: ScriptPart, bounds: Bounds) -> Result<(), Flaw<'a>> {
        let at = self.reader.offset();
        let Bounds { name, least, most } = bounds;
        let (found, number) = self.text(part, name)?;
        if self.fault != ScriptFault::Range || bounds.has(number) {
            return Ok(());
        }
        let wrong = Wrong::Outside {
            name,
            found,
            least,
            most,
        };
        Err(Flaw::new(at, part, wrong))
    }

    /// The number of a module, which is looked at once the modules are counted.
    fn module_number(&mut self, part: ScriptPart) -> Result<(), Flaw<'a>> {
        let at = self.reader.offset();
        let (found, number) = self.text(part, "module")?;
        let Some(modules) = self.modules else {
            return Ok(());
        };
        match number {
            _ if self.fault != ScriptFault::Range => Ok(()),
            Number::Unsigned(number) if number < modules => Ok(()),
            _ => Err(Flaw::new(at, part, Wrong::NoModule { found, modules })),
        }
    }

    /// How many items a list of the script has.
    fn count(
        &self,
        name: &'static str,
        count: usize,
        least: u64,
        most: u64,
    ) -> Result<(), Flaw<'a>> {
        let found = count as u64;
        if self.fault != ScriptFault::Range || (found >= least && found <= most) {
            return Ok(());
        }
        Err(Flaw {
            at: self.reader.offset(),
            part: ScriptPart::Script,
            wrong: Wrong::Many {
                name,
                found,
                least,
                most,
            },
        })
    }

    fn module(&mut self, number: usize) -> Result<(), Flaw<'a>> {
        let (at, part) = (self.reader.offset(), ScriptPart::Module(number));
        let found = self.next();
        let Token::String(digits) = found else {
            return Err(Flaw::wanted(at, part, None, "a string", found));
        };
        if self.fault != ScriptFault::Hex {
            return Ok(());
        }
        match hex::decode(self.alloc, digits) {
            Ok(_) => Ok(()),
            Err(fault) => Err(Flaw {
                at,
                part,
                wrong: Wrong::Digits(fault),
            }),
        }
    }

    fn modules(&mut self) -> Result<(), Flaw<'a>> {
        self.begin(ScriptPart::Script, Some("modules"), true)?;
        for number in 0..self.room {
            if self.reader.take_end_array() {
                self.modules = Some(number as u64);
                return self.count("modules", number, 1, MAX_SCRIPT_MODULES as u64);
            }
            self.module(number)?;
        }
        Ok(())
    }

    /// The next key of an object, by its number, unless the object ends.
    fn key(
        &mut self,
        part: ScriptPart,
        keys: [&'static str; KEYS],
        seen: &mut [bool; KEYS],
    ) -> Result<Option<usize>, Flaw<'a>> {
        let at = self.reader.offset();
        let Token::Key(key) = self.next() else {
            return match first_missing(keys, seen) {
                Some(name) => Err(Flaw::new(at, part, Wrong::Lacks(name))),
                None => Ok(None),
            };
        };
        let Some((index, name)) = find_key(keys, key) else {
            let keys = match part {
                ScriptPart::Script => "modules, loops, workers, steps",
                _ => "module, fuel, work_fuel, depth",
            };
            return Err(Flaw::new(at, part, Wrong::Unknown { key, keys }));
        };
        match seen.get_mut(index) {
            Some(is_seen) if !*is_seen => {
                *is_seen = true;
                Ok(Some(index))
            }
            _ => Err(Flaw::new(at, part, Wrong::Twice(name))),
        }
    }

    /// The value of the key of a loop that has this number.
    fn loop_value(&mut self, part: ScriptPart, key: usize) -> Result<(), Flaw<'a>> {
        match key {
            0 => self.module_number(part),
            1 => self.number(part, Bounds::to("fuel", u64::MAX)),
            2 => self.number(part, Bounds::to("work_fuel", u64::MAX)),
            _ => self.number(part, DEPTH),
        }
    }

    fn one_loop(&mut self, number: usize) -> Result<(), Flaw<'a>> {
        let part = ScriptPart::Loop(number);
        self.begin(part, None, false)?;
        let mut seen = [false; KEYS];
        for _ in 0..self.room {
            match self.key(part, LOOP_KEYS, &mut seen)? {
                Some(key) => self.loop_value(part, key)?,
                None => return Ok(()),
            }
        }
        Ok(())
    }

    fn loops(&mut self) -> Result<(), Flaw<'a>> {
        self.begin(ScriptPart::Script, Some("loops"), true)?;
        for number in 0..self.room {
            if self.reader.take_end_array() {
                return self.count("loops", number, 1, u64::from(MAX_LOOPS));
            }
            self.one_loop(number)?;
        }
        Ok(())
    }

    /// The numbers after the name of a step, to the end of the step.
    fn numbers(&mut self, part: ScriptPart, name: &'a str, names: Names) -> Result<(), Flaw<'a>> {
        let at = self.reader.offset();
        let taken = names.count();
        for given in 0..self.room {
            if self.reader.take_end_array() {
                if given == taken {
                    return Ok(());
                }
                return Err(Flaw::new(at, part, Wrong::Count { name, taken, given }));
            }
            match names.at(given) {
                Some(name) => self.number(part, bounds_of(name))?,
                // one too many is counted
                None => {
                    let _ = self.reader.skip_value(json::MAX_DEPTH);
                }
            }
        }
        Ok(())
    }

    fn step(&mut self, number: usize) -> Result<(), Flaw<'a>> {
        let part = ScriptPart::Step(number);
        self.begin(part, None, true)?;
        let at = self.reader.offset();
        let found = self.next();
        let Token::String(name) = found else {
            return Err(Flaw::wanted(at, part, None, "the name of a step", found));
        };
        match names_of(name) {
            Some(names) => self.numbers(part, name, names),
            None => Err(Flaw::new(at, part, Wrong::NoStep(name))),
        }
    }

    fn steps(&mut self) -> Result<(), Flaw<'a>> {
        self.begin(ScriptPart::Script, Some("steps"), true)?;
        for number in 0..self.room {
            if self.reader.take_end_array() {
                return self.count("steps", number, 0, MAX_SCRIPT_STEPS as u64);
            }
            self.step(number)?;
        }
        Ok(())
    }

    /// The value of the key of the script that has this number.
    fn script_value(&mut self, key: usize) -> Result<(), Flaw<'a>> {
        match key {
            0 => self.modules(),
            1 => self.loops(),
            2 => self.number(ScriptPart::Script, WORKERS),
            _ => self.steps(),
        }
    }

    /// Walks over the whole script, to the first thing that is wrong with it so.
    pub fn script(&mut self) -> Result<(), Flaw<'a>> {
        self.begin(ScriptPart::Script, None, false)?;
        let mut seen = [false; KEYS];
        for _ in 0..self.room {
            match self.key(ScriptPart::Script, SCRIPT_KEYS, &mut seen)? {
                Some(key) => self.script_value(key)?,
                None => return Ok(()),
            }
        }
        Ok(())
    }
}
