//! Reading a file of cases.
use crate::came::push_exchange;
use crate::case::{Case, Cuts, Setting, Streams};
use crate::escapes::push_line;
use crate::fault::{Fault, Wrong};
use std::alloc::Global;
use std::str::FromStr;

/// What a block is.
#[derive(Clone, Copy)]
enum Goal {
    Text,
    Input,
    Output,
    Answer,
    Exchange,
}

/// A block that is read.
#[derive(Drop)]
struct Block {
    goal: Goal,
    /// The name of a text, or the host that was asked.
    name: String,
    times: usize,
    lines: usize,
    bytes: Vec<u8>,
}

/// A text of a file.
#[derive(Drop)]
struct NamedText {
    name: String,
    bytes: Vec<u8>,
}

/// What was read of a file.
#[derive(Drop)]
struct Reader {
    alloc: Global,
    /// What holds for cases that don't say otherwise.
    setting: Setting,
    texts: Vec<NamedText>,
    cases: Vec<Case>,
    block: Option<Block>,
}

/// Reads the cases of a file.
pub fn read(alloc: Global, text: &str) -> Result<Vec<Case>, Fault> {
    let mut reader = Reader {
        alloc,
        setting: Setting::new(),
        texts: Vec::new(alloc),
        cases: Vec::new(alloc),
        block: None,
    };
    reader.take_lines(text)?;
    Ok(reader.cases)
}

impl Reader {
    fn take_lines(&mut self, text: &str) -> Result<(), Fault> {
        let mut number = 0usize;
        for line in text.lines() {
            number = number.saturating_add(1);
            if let Err(wrong) = self.take_line(number, line) {
                return Err(wrong.at(number));
            }
        }
        match self.end() {
            Ok(()) => Ok(()),
            Err(wrong) => Err(wrong.at(number)),
        }
    }

    /// Ends the file.
    fn end(&mut self) -> Result<(), Wrong> {
        self.close_block()?;
        self.end_case()?;
        if self.cases.is_empty() {
            return Err(Wrong::Why("no case stands above"));
        }
        Ok(())
    }

    fn take_line(&mut self, number: usize, line: &str) -> Result<(), Wrong> {
        if let Some(text) = line.strip_prefix("|") {
            return self.take_text(text);
        }
        self.close_block()?;
        if line.is_empty() || line.starts_with("#") {
            return Ok(());
        }
        if let Some(title) = line.strip_prefix("== ") {
            return self.begin_case(title, number);
        }
        match line.split_once(" ") {
            Some((head, rest)) => self.take_head(head, rest),
            None => self.take_head(line, ""),
        }
    }

    /// Takes a line of a block, behind its bar.
    fn take_text(&mut self, text: &str) -> Result<(), Wrong> {
        let Some(block) = &mut self.block else {
            return Err(Wrong::Why("no block has begun"));
        };
        let line = match text.strip_prefix(" ") {
            Some(line) => line,
            None if text.is_empty() => "",
            None => return Err(Wrong::Why("no blank behind the bar")),
        };
        block.lines = block.lines.saturating_add(1);
        push_line(&mut block.bytes, line, b"\r\n")
    }

    fn begin_case(&mut self, title: &str, number: usize) -> Result<(), Wrong> {
        self.end_case()?;
        self.cases.push(Case::new(self.alloc, title, number)?)?;
        Ok(())
    }

    /// Takes a line of another kind, by its first word.
    fn take_head(&mut self, head: &str, rest: &str) -> Result<(), Wrong> {
        match head {
            "words" => self.take_words(rest),
            "clock" => self.take_clock(rest),
            "text" => self.begin_text(rest),
            "in" => self.begin_block(Goal::Input, rest),
            "out" => self.begin_block(Goal::Output, rest),
            "answer" => self.begin_block(Goal::Answer, rest),
            "asked" => self.begin_asked(rest),
            "prefixes" => self.take_prefixes(rest),
            _ => self.take_of_case(head, rest),
        }
    }

    fn take_words(&mut self, rest: &str) -> Result<(), Wrong> {
        let words = words_of(self.alloc, rest)?;
        put_once(&mut self.last_setting().words, words)
    }

    fn take_clock(&mut self, rest: &str) -> Result<(), Wrong> {
        let readings = numbers_of(self.alloc, rest)?;
        put_once(&mut self.last_setting().clock, readings)
    }

    /// The setting of the last case, or of the file where there is none yet.
    fn last_setting(&mut self) -> &mut Setting {
        match self.cases.last_mut() {
            Some(case) => &mut case.setting,
            None => &mut self.setting,
        }
    }

    fn last_case(&mut self) -> Result<&mut Case, Wrong> {
        match self.cases.last_mut() {
            Some(case) => Ok(case),
            None => Err(Wrong::Why("no case has begun, or no such line is known")),
        }
    }

    fn begin_text(&mut self, rest: &str) -> Result<(), Wrong> {
        if !self.cases.is_empty() {
            return Err(Wrong::Why("texts stand above the first case"));
        }
        if !is_text_name(rest) || self.text_named(rest).is_some() {
            return Err(Wrong::Why("no name, or one that another text has"));
        }
        let name = String::from_str(self.alloc, rest)?;
        self.block = Some(new_block(self.alloc, Goal::Text, name, 1));
        Ok(())
    }

    fn text_named(&self, name: &str) -> Option<&NamedText> {
        self.texts.iter().find(|text| text.name.as_str() == name)
    }

    fn begin_asked(&mut self, rest: &str) -> Result<(), Wrong> {
        let (host, rest) = match rest.split_once(" ") {
            Some((host, rest)) => (host, rest),
            None => (rest, ""),
        };
        if host.is_empty() {
            return Err(Wrong::Why("no host"));
        }
        let host = String::from_str(self.alloc, host)?;
        self.begin_named_block(Goal::Exchange, host, rest)
    }

    fn begin_block(&mut self, goal: Goal, rest: &str) -> Result<(), Wrong> {
        let name = String::new(self.alloc);
        self.begin_named_block(goal, name, rest)
    }

    /// Begins a block of a case: what stands behind its head is a number, a text, or both.
    fn begin_named_block(&mut self, goal: Goal, name: String, rest: &str) -> Result<(), Wrong> {
        self.last_case()?;
        let (times, text) = times_and_text(rest)?;
        if times == 0 {
            return Err(Wrong::Why("nothing stands 0 times"));
        }
        let mut block = new_block(self.alloc, goal, name, times);
        if text.is_empty() {
            self.block = Some(block);
            return Ok(());
        }
        self.push_text(&mut block.bytes, text)?;
        self.end_block(block)
    }

    /// Appends the text of this name.
    fn push_text(&self, to: &mut Vec<u8>, name: &str) -> Result<(), Wrong> {
        match self.text_named(name) {
            None => Err(Wrong::Why("no text has this name")),
            Some(text) => Ok(to.extend_from_slice(&text.bytes)?),
        }
    }

    /// Ends the block that is read, if any.
    fn close_block(&mut self) -> Result<(), Wrong> {
        match self.block.take() {
            None => Ok(()),
            Some(block) if block.lines == 0 => Err(Wrong::Why("the block above has no line")),
            Some(block) => self.end_block(block),
        }
    }

    fn end_block(&mut self, block: Block) -> Result<(), Wrong> {
        let Block {
            goal,
            name,
            times,
            bytes,
            ..
        } = block;
        if matches!(goal, Goal::Text) {
            self.texts.push(NamedText { name, bytes })?;
            return Ok(());
        }
        let alloc = self.alloc;
        let case = self.last_case()?;
        for _ in 0..times {
            add_block(alloc, case, goal, name.as_str(), &bytes)?;
        }
        Ok(())
    }

    fn take_prefixes(&mut self, name: &str) -> Result<(), Wrong> {
        let mut tail = Vec::new(self.alloc);
        self.push_text(&mut tail, name)?;
        let case = self.last_case()?;
        if !case.tail.is_empty() {
            return Err(Wrong::Why("a second line of this kind"));
        }
        case.tail = tail;
        Ok(())
    }

    /// Takes a line that only a case has.
    fn take_of_case(&mut self, head: &str, rest: &str) -> Result<(), Wrong> {
        let alloc = self.alloc;
        let case = self.last_case()?;
        match head {
            "cut" => take_cuts(alloc, case, rest),
            "fail" => take_fails(alloc, case, rest),
            "conn" => take_conn(alloc, case, rest),
            "err" => take_err(case, rest),
            "status" => put_once(&mut case.status, number_of(rest)?),
            "left" => put_once(&mut case.left, number_of(rest)?),
            "served" => put_once(&mut case.served, number_of(rest)?),
            _ => Err(Wrong::Why("no such line is known")),
        }
    }

    /// Ends the last case, if any: it takes what the file says for all.
    fn end_case(&mut self) -> Result<(), Wrong> {
        let Some(case) = self.cases.last_mut() else {
            return Ok(());
        };
        take_missing(self.alloc, &mut case.setting, &self.setting)?;
        if case.status.is_none() {
            case.status = Some(0);
        }
        if case.served.is_none() {
            case.served = Some(case.conn_count());
        }
        if case.forms() == 0 {
            return Err(Wrong::Why("the case above has no form to be played in"));
        }
        Ok(())
    }
}

/// Takes what a setting lacks from that of the file.
fn take_missing(alloc: Global, setting: &mut Setting, of_file: &Setting) -> Result<(), Wrong> {
    if setting.words.is_none()
        && let Some(words) = &of_file.words
    {
        setting.words = Some(copy_words(alloc, words)?);
    }
    if setting.clock.is_none()
        && let Some(clock) = &of_file.clock
    {
        setting.clock = Some(clock.clone()?);
    }
    Ok(())
}

fn new_block(alloc: Global, goal: Goal, name: String, times: usize) -> Block {
    Block {
        goal,
        name,
        times,
        lines: 0,
        bytes: Vec::new(alloc),
    }
}

/// Adds the bytes of a block to a case.
fn add_block(
    alloc: Global,
    case: &mut Case,
    goal: Goal,
    name: &str,
    bytes: &[u8],
) -> Result<(), Wrong> {
    match goal {
        Goal::Text => {}
        Goal::Input if bytes.is_empty() => {
            return Err(Wrong::Why("an empty block of the input"));
        }
        Goal::Input => {
            let streams = case.last_streams();
            streams.blocks.push(bytes.len())?;
            streams.input.extend_from_slice(bytes)?;
        }
        Goal::Output => case.last_streams().out.extend_from_slice(bytes)?,
        Goal::Answer => case.answers.push(Vec::from_slice(alloc, bytes)?)?,
        Goal::Exchange => push_exchange(alloc, &mut case.asked, name.as_bytes(), bytes)?,
    }
    Ok(())
}

fn put_once<T: Drop>(place: &mut Option<T>, value: T) -> Result<(), Wrong> {
    if place.is_some() {
        return Err(Wrong::Why("a second line of this kind"));
    }
    *place = Some(value);
    Ok(())
}

fn take_err(case: &mut Case, rest: &str) -> Result<(), Wrong> {
    if !case.err.is_empty() {
        return Err(Wrong::Why("a second line of this kind"));
    }
    push_line(&mut case.err, rest, b"\n")
}

fn take_conn(alloc: Global, case: &mut Case, rest: &str) -> Result<(), Wrong> {
    let mut streams = Streams::new(alloc);
    if !rest.is_empty() {
        streams.times = number_of(rest)?;
    }
    case.conns.push(streams)?;
    Ok(())
}

fn take_fails(alloc: Global, case: &mut Case, rest: &str) -> Result<(), Wrong> {
    let Some((object, rest)) = rest.split_once(" ") else {
        return Err(Wrong::Why("no object, or no number"));
    };
    let fails = numbers_of(alloc, rest)?;
    if fails.contains(&0) {
        return Err(Wrong::Why("calls are counted from 1"));
    }
    let Some(place) = fails_of(case, object) else {
        return Err(Wrong::Why("there is no such object"));
    };
    if !place.is_empty() {
        return Err(Wrong::Why("a second line of this kind"));
    }
    *place = fails;
    Ok(())
}

/// The calls of this object that are to fail.
fn fails_of<'c>(case: &'c mut Case, object: &str) -> Option<&'c mut Vec<u64>> {
    match object {
        "in" => Some(&mut case.last_streams().read_fails),
        "out" => Some(&mut case.last_streams().put_fails),
        "err" => Some(&mut case.err_fails),
        "link" => Some(&mut case.link_fails),
        "door" => Some(&mut case.door_fails),
        _ => None,
    }
}

fn take_cuts(alloc: Global, case: &mut Case, rest: &str) -> Result<(), Wrong> {
    let cuts = read_cuts(alloc, rest)?;
    let is_of_conn = !case.conns.is_empty();
    if is_of_conn && matches!(cuts, Cuts::Each | Cuts::Turns) {
        return Err(Wrong::Why("a connection of the door is not cut so"));
    }
    let streams = case.last_streams();
    if !matches!(&streams.cuts, Cuts::List(list) if list.is_empty()) {
        return Err(Wrong::Why("a second line of this kind"));
    }
    streams.cuts = cuts;
    Ok(())
}

fn read_cuts(alloc: Global, rest: &str) -> Result<Cuts, Wrong> {
    if rest == "each" {
        return Ok(Cuts::Each);
    }
    if rest == "turns" {
        return Ok(Cuts::Turns);
    }
    if let Some(count) = rest.strip_suffix("*") {
        return Ok(Cuts::Every(cut_size(count)?));
    }
    let mut cuts = Vec::new(alloc);
    for word in rest.split_whitespace() {
        cuts.push(cut_size(word)?)?;
    }
    if cuts.is_empty() {
        return Err(Wrong::Why("no number"));
    }
    Ok(Cuts::List(cuts))
}

/// How many bytes a read gives.
fn cut_size(word: &str) -> Result<usize, Wrong> {
    match number_of(word)? {
        0 => Err(Wrong::Why("a read gives something")),
        count => Ok(count),
    }
}

/// A number that a word is.
fn number_of<N: FromStr>(word: &str) -> Result<N, Wrong>
where
    N::Err: Drop,
{
    match word.parse::<N>() {
        Ok(number) => Ok(number),
        Err(_) => Err(Wrong::Why("no number of this kind")),
    }
}

/// Numbers between blanks, one at least.
fn numbers_of(alloc: Global, rest: &str) -> Result<Vec<u64>, Wrong> {
    let mut numbers = Vec::new(alloc);
    for word in rest.split_whitespace() {
        numbers.push(number_of(word)?)?;
    }
    if numbers.is_empty() {
        return Err(Wrong::Why("no number"));
    }
    Ok(numbers)
}

fn words_of(alloc: Global, rest: &str) -> Result<Vec<String>, Wrong> {
    let mut words = Vec::new(alloc);
    for word in rest.split_whitespace() {
        words.push(String::from_str(alloc, word)?)?;
    }
    Ok(words)
}

fn copy_words(alloc: Global, words: &[String]) -> Result<Vec<String>, Wrong> {
    let mut copy = Vec::new(alloc);
    for word in words {
        copy.push(word.clone()?)?;
    }
    Ok(copy)
}

/// Whether a word can name a text: it isn't empty, and doesn't begin with a digit.
fn is_text_name(word: &str) -> bool {
    !word.contains(" ")
        && word
            .bytes()
            .next()
            .is_some_and(|byte| !byte.is_ascii_digit())
}

/// What stands behind the head of a block: a number, the name of a text, or both. The number is
/// 1 and the name empty where it is missing.
fn times_and_text(rest: &str) -> Result<(usize, &str), Wrong> {
    if rest.is_empty() || is_text_name(rest) {
        return Ok((1, rest));
    }
    match rest.split_once(" ") {
        None => Ok((number_of(rest)?, "")),
        Some((times, name)) => Ok((number_of(times)?, name)),
    }
}
