// A round: one network, with a quote, a front and a walk on it.
use crate::agreement::{Known, Space, agreed_pairs, lay_out, quote_agrees, walk_agrees};
use crate::cases::{PLACES, random_ask, random_codes, random_grain, random_nodes, random_places};
use crate::random::Random;
use anyhow::anyhow;
use brute::{Ask, Net, best_list, pairs_within, walked};
use netmap::RecordTable;
use std::fmt;

// How many rounds there were, and what the two agreed on.
#[derive(Clone, Copy, Default)]
pub struct Counts {
    round: u32,
    quotes: u32,
    granted: u32,
    refused: u32,
    fronts: u32,
    pairs: usize,
    walks: u32,
    legal: u32,
}

impl fmt::Display for Counts {
    fn fmt<W: fmt::Write>(&self, f: &mut fmt::Formatter<W>) -> fmt::Result {
        let Counts {
            quotes,
            granted,
            refused,
            fronts,
            pairs,
            walks,
            legal,
            ..
        } = self;
        writeln!(
            f,
            "quotes {quotes} agreed, {granted} granted, {refused} refused by 20"
        )?;
        writeln!(f, "fronts {fronts} agreed, {pairs} pairs")?;
        write!(f, "walks {walks} agreed, {legal} legal")
    }
}

fn count_up(count: &mut u32) {
    *count = count.saturating_add(1);
}

// A round under way: its network, what is asked of it (an order, and a list to walk), and what it is lent for as long.
#[derive(Drop)]
struct Round<'r, 'a, V> {
    rt: &'r HostRuntime,
    net: Net<'a>,
    map: RecordTable<'a>,
    ask: Ask,
    codes: Vec<u16>,
    space: &'r mut Space<V>,
    counts: &'r mut Counts,
}

impl<V: Known> Round<'_, '_, V> {
    fn disagree(&self, call: &str) -> anyhow::Result<()> {
        let round = self.counts.round;
        println!(self.rt; "{call} of round {round} DISAGREES")?;
        Ok(())
    }

    fn compare_quote(&mut self) -> anyhow::Result<()> {
        let expected = best_list(self.rt.alloc(), &self.net, self.ask)?;
        if !quote_agrees(&self.map, self.ask, self.space, expected) {
            return self.disagree("quote");
        }
        count_up(&mut self.counts.quotes);
        match expected {
            Some(_) => count_up(&mut self.counts.granted),
            None => count_up(&mut self.counts.refused),
        }
        Ok(())
    }

    fn compare_front(&mut self) -> anyhow::Result<()> {
        let expected = pairs_within(self.rt.alloc(), &self.net, self.ask)?;
        let Some(held) = agreed_pairs(&self.map, self.ask, self.space, &expected) else {
            return self.disagree("front");
        };
        count_up(&mut self.counts.fronts);
        self.counts.pairs = self.counts.pairs.saturating_add(held);
        Ok(())
    }

    fn compare_walk(&mut self) -> anyhow::Result<()> {
        let expected = walked(&self.net, self.ask.source, self.ask.grain, &self.codes);
        if !walk_agrees(&self.map, self.ask, &self.codes, self.space, expected) {
            return self.disagree("walk");
        }
        count_up(&mut self.counts.walks);
        if expected.is_ok() {
            count_up(&mut self.counts.legal);
        }
        Ok(())
    }
}

pub(crate) fn compare_round<V: Known>(
    rt: &HostRuntime,
    random: &mut Random,
    space: &mut Space<V>,
    counts: &mut Counts,
) -> anyhow::Result<()> {
    count_up(&mut counts.round);
    let nodes = random_nodes(random);
    let grain = random_grain(random);
    let places = random_places(random, nodes, grain);
    let mut records = [None; PLACES];
    let mut map = RecordTable::over(&mut records);
    lay_out(&mut map, nodes, &places).map_err(|denial| anyhow!("the map of a round is {denial}"))?;
    let mut round = Round {
        rt,
        net: Net::new(rt.alloc(), V::RULE, nodes, &places)?,
        map,
        ask: random_ask(random, nodes, grain),
        codes: random_codes(rt.alloc(), random, nodes)?,
        space,
        counts,
    };
    round.compare_quote()?;
    round.compare_front()?;
    round.compare_walk()
}
