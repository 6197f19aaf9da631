// The shape of a script's JSON, as serde reads it.

use serde::{Deserialize, Deserializer, Format, Kind, Name};
use std::alloc::Global;
use world_log::Step;

/// A script, with exactly these keys.
#[derive(Drop, Deserialize)]
#[serde(deny_unknown_fields)]
pub struct Document {
    pub modules: Vec<String>,
    pub loops: Vec<Object<LoopDocument>>,
    pub workers: Ranged<u32>,
    pub steps: Vec<Ranged<Step>>,
}

/// A loop of a script, with exactly these keys.
#[derive(Drop, Deserialize)]
#[serde(deny_unknown_fields)]
pub struct LoopDocument {
    pub module: Ranged<u32>,
    pub fuel: Ranged<u64>,
    pub work_fuel: Ranged<u64>,
    pub depth: Ranged<u32>,
}

/// What stands as an object: a derived reader would take an array of the fields too.
#[derive(Drop)]
pub struct Object<T>(pub T);

/// What numbers say, or `None` where one of them is out of its range.
#[derive(Clone, Copy)]
pub struct Ranged<T>(pub Option<T>);

impl<'de, T: Deserialize<'de>> Deserialize<'de> for Object<T> {
    fn deserialize<F: Format>(
        alloc: Global,
        from: &mut Deserializer<'de, '_, F>,
    ) -> Result<Object<T>, F::Error> {
        match from.peek()? {
            Kind::Map => Ok(Object(T::deserialize(alloc, from)?)),
            _ => Err(from.invalid()),
        }
    }
}

// An integer that a u64 holds, or a negative one that an i64 holds, which is out of range.
impl<'de> Deserialize<'de> for Ranged<u64> {
    fn deserialize<F: Format>(
        _alloc: Global,
        from: &mut Deserializer<'de, '_, F>,
    ) -> Result<Ranged<u64>, F::Error> {
        match from.peek()? {
            Kind::Unsigned => Ok(Ranged(Some(from.u64()?))),
            Kind::Signed => {
                from.skip()?;
                Ok(Ranged(None))
            }
            _ => Err(from.invalid()),
        }
    }
}

impl<'de> Deserialize<'de> for Ranged<u32> {
    fn deserialize<F: Format>(
        alloc: Global,
        from: &mut Deserializer<'de, '_, F>,
    ) -> Result<Ranged<u32>, F::Error> {
        let wide = Ranged::<u64>::deserialize(alloc, from)?;
        Ok(Ranged(wide.0.and_then(|number| u32::try_from(number).ok())))
    }
}

// An array of the step's name and its numbers.
impl<'de> Deserialize<'de> for Ranged<Step> {
    fn deserialize<F: Format>(
        alloc: Global,
        from: &mut Deserializer<'de, '_, F>,
    ) -> Result<Ranged<Step>, F::Error> {
        from.begin_seq()?;
        from.expect_item()?;
        let name = from.variant(&STEP_NAMES.map(Name::exact))?;
        let step = match name {
            0..=5 => item(alloc, from)?.map(|number| step_of_one(name, number)),
            6 | 7 => pair(alloc, from)?.map(|(loop_no, number)| step_of_two(name, loop_no, number)),
            8 => pair(alloc, from)?.map(|(loop_no, clock)| Step::Clock(loop_no, clock)),
            _ => return Err(from.unknown_variant()),
        };
        from.expect_end()?;
        Ok(Ranged(step))
    }
}

const STEP_NAMES: [&str; 9] = [
    "loop", "post", "take", "start", "finish", "collect", "send", "cancel", "clock",
];

/// The step of this name, which has one number.
fn step_of_one(name: usize, number: u32) -> Step {
    match name {
        0 => Step::Loop(number),
        1 => Step::Post(number),
        2 => Step::Take(number),
        3 => Step::Start(number),
        4 => Step::Finish(number),
        _ => Step::Collect(number),
    }
}

/// The step of this name, which has the loop's number and one more.
fn step_of_two(name: usize, loop_no: u32, number: u32) -> Step {
    match name {
        6 => Step::Send(loop_no, number),
        _ => Step::Cancel(loop_no, number),
    }
}

/// The next item of an array.
fn item<'de, T: Drop, F: Format>(
    alloc: Global,
    from: &mut Deserializer<'de, '_, F>,
) -> Result<Option<T>, F::Error>
where
    Ranged<T>: Deserialize<'de>,
{
    from.expect_item()?;
    Ok(Ranged::<T>::deserialize(alloc, from)?.0)
}

/// The next two items of an array.
fn pair<'de, T: Drop, F: Format>(
    alloc: Global,
    from: &mut Deserializer<'de, '_, F>,
) -> Result<Option<(u32, T)>, F::Error>
where
    Ranged<T>: Deserialize<'de>,
{
    let first = item::<u32, F>(alloc, from)?;
    Ok(first.zip(item::<T, F>(alloc, from)?))
}
