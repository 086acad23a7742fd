//! Tables of edge colourings, and the insertion of an edge.

ghost use Rattle.std.specs.Prelude.{◌≡◌, ◌+◌, ◌*◌, ◌<◌, ◌≤◌, ◌↔◌, length, replicate, All, Some};
ghost use Rattle.std.specs.Prelude.{None, Err, IfOk, OnOk, OnErr, MatchOption, IfSome, IfNone};
ghost use Rattle.std.specs.Prelude.{OnSome};
ghost use Rattle.batch.specs.Batches.{IsBatch};
ghost use Rattle.batch.specs.declared.limits.TheConstants.{MAX_MODULES};
ghost use Rattle.link_graph.specs.declared.link.End.TheVariants.{Zero, Three};
ghost use Rattle.link_graph.specs.Certificates.{AreDistinct};
ghost use Rattle.link_graph.specs.declared.limits.TheConstants.{LINKS};
ghost use Rattle.link_graph.specs.Uses.{IsMatching};
ghost use Rattle.alternating_path.specs.Colouring.{colour_at, HasColour, nothing_placed};
ghost use Rattle.alternating_path.specs.Colouring.{IsProperTable, IsFreeAt, TakesAt, with_colour};
ghost use Rattle.alternating_path.specs.Colouring.{PlacesOnly, PlacesJust, ArePlacedApart, counted};
ghost use Rattle.alternating_path.specs.Colouring.{IsJoined, HasClassMore};
ghost use Rattle.alternating_path.specs.Classes.{AreClassesOf, ScheduleIfAll, class_size};
ghost use Rattle.alternating_path.specs.Classes.{IsSmallestClass, IsTakenBack};
ghost use Rattle.alternating_path.specs.Counts.{placed_uses_at, IsShutOut};
ghost use Rattle.alternating_path.specs.Cells.{place_at, StartBelow, AreStarts};

use crate::classes::classes;
use crate::coloured::Coloured;
use crate::fault::InsertFault;
use crate::rows::{class_of, class_size, note_class, remove_row};
use batch::{MAX_MODULES, MAX_TRANSFERS};
use link_graph::{End, LINKS, Link, LinkGraph};
use std::alloc::{AllocError, Global};
use std::marker::Model;
use step_count::Steps;

/// Some of the transfers of a graph, each with a colour, so that no two transfers of one colour use
/// a common link. Colours are numbered from 0.
///
/// Its room depends on the number of colours alone, and not on the number of transfers.
#[derive(Drop)]
pub struct Table<'a> {
    graph: &'a LinkGraph,
    colours: usize,
    /// A row for each colour, with a cell for each link: the transfer of that colour that uses the
    /// link, where there is one. Tables of one graph are joined by putting their rows together.
    cells: Vec<Option<u16>>,
    inserted: usize,
}

impl<'a> Model for Table<'a> {
    ghost use Rattle.alternating_path.specs.Colouring.{Colouring};
    ghost use Rattle.alternating_path.specs.Cells.{shown_colouring, ShowColouring};

    ghost Value = { Colouring };

    ghost view = { λ t. shown_colouring t.graph.now t.colours t.cells.items t.inserted };

    ghost invariant = { λ t. ShowColouring t.graph.now t.colours t.cells.items };
}

impl<'a> Table<'a> {
    /// A table with this many colours, in which nothing is placed.
    ///
    /// Takes time and room that grow with the number of colours.
    pub fn new(alloc: Global, graph: &'a LinkGraph, colours: usize) -> Result<Table<'a>, AllocError>
        ensures { IfOk result (λ table. table ≡ nothing_placed graph.now colours) }
    {
        let cells = vec![in alloc; None; colours.saturating_mul(LINKS)]?;
        Ok(Table::empty(graph, colours, cells))
    }

    /// The table of these colours whose cells hold nothing.
    fn empty(graph: &'a LinkGraph, colours: usize, cells: Vec<Option<u16>>) -> Table<'a>
        requires { cells.items ≡ replicate (colours * LINKS) None }
        ensures { result ≡ nothing_placed graph.now colours }
    {
        prove!(graph.len() <= MAX_TRANSFERS);
        Table {
            graph,
            colours,
            cells,
            inserted: 0,
        }
    }

    /// A table with one colour, in which just the members are placed: distinct numbers of transfers
    /// of which no two use a common link.
    ///
    /// Takes time that grows with the number of members.
    pub fn one(
        alloc: Global,
        graph: &'a LinkGraph,
        members: &[usize],
    ) -> Result<Table<'a>, AllocError>
        requires known { All (λ t. t < length graph.now) members.now }
        requires matching { IsMatching graph.now members.now }
        ensures batch { IfOk result (λ table. table.batch ≡ graph.now) }
        ensures colours { IfOk result (λ table. table.colours ≡ 1) }
        ensures placed { IfOk result (λ table. PlacesOnly table.colour members.now) }
        ensures inserted { IfOk result (λ table. table.inserted ≡ 0) }
        ensures proper { IfOk result IsProperTable }
    {
        Table::one_with_room(alloc, graph, members, 1, &mut Steps::none())
    }

    /// As [`one`](Table::one), with room for this many colours: so many can be joined to the one
    /// before the table's cells have to be moved.
    pub fn one_with_room(
        alloc: Global,
        graph: &'a LinkGraph,
        members: &[usize],
        colours: usize,
        steps: &mut Steps,
    ) -> Result<Table<'a>, AllocError>
        requires known { All (λ t. t < length graph.now) members.now }
        requires matching { IsMatching graph.now members.now }
        ensures batch { IfOk result (λ table. table.batch ≡ graph.now) }
        ensures colours { IfOk result (λ table. table.colours ≡ 1) }
        ensures placed { IfOk result (λ table. PlacesOnly table.colour members.now) }
        ensures inserted { IfOk result (λ table. table.inserted ≡ 0) }
        ensures proper { IfOk result IsProperTable }
        ensures cost { steps.new ≤ steps.old + LINKS + length members.now }
    {
        let cells = Vec::with_capacity(alloc, colours.saturating_mul(LINKS))?;
        Table::empty(graph, 0, cells).with_class(members, steps)
    }

    /// The table with one colour more, after the others, that just the members have: distinct
    /// numbers of transfers that aren't placed yet, of which no two use a common link. The table is
    /// dropped also where there is no memory.
    ///
    /// Takes time that grows with the number of members, where the table has room for the colour;
    /// else also with the number of colours.
    pub fn with_class(self, members: &[usize], steps: &mut Steps) -> Result<Table<'a>, AllocError>
        requires known { All (λ t. t < length self.batch) members.now }
        requires matching { IsMatching self.batch members.now }
        requires out { All (λ t. colour_at self.colour t ≡ None) members.now }
        ensures more { IfOk result (HasClassMore self.entry members.now) }
        ensures proper { IfOk result IsProperTable }
        ensures cost { steps.new
            ≤ steps.old + (self.entry.colours + 1) * LINKS + length members.now }
    {
        let colour = self.colours;
        let mut table = self.with_free_colour(steps)?;
        for t in members {
            steps.tick();
            table.put_in(*t, colour);
        }
        Ok(table)
    }

    /// The table with one colour more, after the others, that no transfer has.
    fn with_free_colour(self, steps: &mut Steps) -> Result<Table<'a>, AllocError>
        ensures more { IfOk result
            (λ table. table ≡ record self.entry { colours = self.entry.colours + 1 }) }
        ensures proper { IfOk result IsProperTable }
        ensures before { IfOk result (λ _. IsProperTable self.entry) }
        ensures cost { steps.new ≤ steps.old + (self.entry.colours + 1) * LINKS }
    {
        let Table {
            graph,
            colours,
            mut cells,
            inserted,
        } = self;
        cells.extend_from_slice(&[None; LINKS])?;
        steps.tick_many(cells.len());
        Ok(Table {
            graph,
            colours: colours + 1,
            cells,
            inserted,
        })
    }

    /// A table with a colour for each member, in their order, in which just the members are placed:
    /// distinct numbers of transfers. There is room for this many colours, as in
    /// [`one_with_room`](Table::one_with_room).
    ///
    /// Takes time that grows with the number of members.
    pub fn each_with_room(
        alloc: Global,
        graph: &'a LinkGraph,
        members: &[usize],
        colours: usize,
        steps: &mut Steps,
    ) -> Result<Table<'a>, AllocError>
        requires known { All (λ t. t < length graph.now) members.now }
        requires distinct { AreDistinct members.now }
        ensures batch { IfOk result (λ table. table.batch ≡ graph.now) }
        ensures colours { IfOk result (λ table. table.colours ≡ length members.now) }
        ensures placed { IfOk result (λ table. PlacesOnly table.colour members.now) }
        ensures inserted { IfOk result (λ table. table.inserted ≡ 0) }
        ensures proper { IfOk result IsProperTable }
        ensures cost { steps.new ≤ steps.old + (LINKS + 1) * length members.now }
    {
        let count = members.len();
        let room = colours.max(count).saturating_mul(LINKS);
        let mut cells = Vec::with_capacity(alloc, room)?;
        let filled = count.saturating_mul(LINKS);
        steps.tick_many(filled);
        cells.resize(filled, None)?;
        let mut table = Table::empty(graph, count, cells);
        for (colour, t) in members.iter().enumerate() {
            steps.tick();
            table.put_in(*t, colour);
        }
        Ok(table)
    }

    /// The two tables in one: the colours of the left table, and after them those of the right
    /// one. Both are of one graph, and no transfer is placed in both. They are dropped also where
    /// there is no memory.
    ///
    /// Takes time that grows with the number of colours.
    pub fn join(left: Table<'a>, right: Table<'a>) -> Result<Table<'a>, AllocError>
        requires one_graph { left.batch ≡ right.batch }
        requires apart { ArePlacedApart left.colour right.colour }
        ensures joined { IfOk result (IsJoined left.entry right.entry) }
        ensures proper { IfOk result IsProperTable }
    {
        Table::join_in_steps(left, right, &mut Steps::none())
    }

    /// [`join`](Table::join), with its steps counted: each cell of both is moved at most once.
    pub fn join_in_steps(
        left: Table<'a>,
        right: Table<'a>,
        steps: &mut Steps,
    ) -> Result<Table<'a>, AllocError>
        requires one_graph { left.batch ≡ right.batch }
        requires apart { ArePlacedApart left.colour right.colour }
        ensures joined { IfOk result (IsJoined left.entry right.entry) }
        ensures proper { IfOk result IsProperTable }
        ensures cost { steps.new ≤ steps.old + (left.entry.colours + right.entry.colours) * LINKS }
    {
        let Table {
            graph,
            colours,
            mut cells,
            inserted,
        } = left;
        cells.extend_from_slice(right.cells.as_slice())?;
        steps.tick_many(cells.len());
        Ok(Table {
            graph,
            colours: colours + right.colours,
            cells,
            inserted: inserted.saturating_add(right.inserted),
        })
    }

    /// How many colours there are.
    pub fn colours(&self) -> usize
        ensures colours { result ≡ self.now.colours }
        ensures proper { IsProperTable self.now }
    {
        self.colours
    }

    /// How many insertions succeeded, counted no further than `usize::MAX`.
    pub fn inserted(&self) -> usize
        ensures { result ≡ self.now.inserted }
    {
        self.inserted
    }

    /// The colour of transfer `t`, where it is placed. Looks along one link: takes time that grows
    /// with the number of colours.
    pub fn colour_of(&self, t: usize) -> Option<usize>
        ensures colour { result ≡ colour_at self.now.colour t }
        ensures proper { IsProperTable self.now }
    {
        self.colour_in_steps(t, &mut Steps::none())
    }

    /// [`colour_of`](Table::colour_of), with its steps counted: each colour is looked at once.
    fn colour_in_steps(&self, t: usize, steps: &mut Steps) -> Option<usize>
        ensures colour { result ≡ colour_at self.now.colour t }
        ensures proper { IsProperTable self.now }
        ensures cost { steps.new ≤ steps.old + self.now.colours }
    {
        if t >= self.graph.len() {
            return None;
        }
        let place = place_at(self.graph, t, End::Zero);
        for colour in 0..self.colours {
            steps.tick();
            if let Some(holder) = self.cells[colour * LINKS + place] {
                if usize::from(holder) == t {
                    return Some(colour);
                }
            }
        }
        None
    }

    /// Places transfer `t`, which must be one of the graph. Other placed transfers may change their
    /// colours. Where `t` is placed already it answers [`InsertFault::Already`], else
    /// [`InsertFault::NoRoom`] where one of its links is full, as the transfers placed there have
    /// all colours; then nothing changes.
    ///
    /// Takes time that grows with the number of colours, which are looked at along two links, and
    /// with the length of an alternating path, which meets each link at most once.
    pub fn insert(&mut self, t: usize) -> Result<(), InsertFault>
        requires { t < length self.old.batch }
        ensures already { (result ≡ Err InsertFault.Already) ↔ HasColour self.old.colour t }
        ensures no_room { (result ≡ Err InsertFault.NoRoom) ↔ IsShutOut self.old t }

        ensures placed { OnOk result (PlacesJust self.old.colour self.new.colour t) }
        ensures counted { OnOk result (self.new.inserted ≡ counted (self.old.inserted + 1)) }
        ensures unchanged { OnErr result (self.new ≡ self.old) }

        ensures batch { self.new.batch ≡ self.old.batch }
        ensures colours { self.new.colours ≡ self.old.colours }
        ensures proper { IsProperTable self.new }
    {
        self.insert_in_steps(t, &mut Steps::none())
    }

    /// [`insert`](Table::insert), with its steps counted: a look at a colour at a link is one, and
    /// a transfer that is placed.
    pub fn insert_in_steps(&mut self, t: usize, steps: &mut Steps) -> Result<(), InsertFault>
        requires { t < length self.old.batch }
        ensures already { (result ≡ Err InsertFault.Already) ↔ HasColour self.old.colour t }
        ensures no_room { (result ≡ Err InsertFault.NoRoom) ↔ IsShutOut self.old t }

        ensures placed { OnOk result (PlacesJust self.old.colour self.new.colour t) }
        ensures counted { OnOk result (self.new.inserted ≡ counted (self.old.inserted + 1)) }
        ensures unchanged { OnErr result (self.new ≡ self.old) }

        ensures batch { self.new.batch ≡ self.old.batch }
        ensures colours { self.new.colours ≡ self.old.colours }
        ensures proper { IsProperTable self.new }
        ensures cost { steps.new ≤ steps.old + 3 * self.old.colours + 2 * MAX_MODULES + 1 }
    {
        if self.colour_in_steps(t, steps).is_some() {
            return Err(InsertFault::Already);
        }
        let Some(first) = self.free_colour(t, End::Zero, steps) else {
            return Err(InsertFault::NoRoom);
        };
        let Some(second) = self.free_colour(t, End::Three, steps) else {
            return Err(InsertFault::NoRoom);
        };
        self.place(t, first, second, steps);
        self.inserted = self.inserted.saturating_add(1);
        Ok(())
    }

    /// Gives up a smallest class, the one of the least colour among equals: the table without it,
    /// and its transfers. The colours above come one down. There has to be a colour, and the table
    /// is dropped also where there is no memory.
    ///
    /// Takes time that grows with the number of colours.
    pub fn take_back(self) -> Result<(Table<'a>, Vec<usize>), AllocError>
        requires { 0 < self.colours }
        ensures taken { IfOk result (λ taken. IsTakenBack self.entry taken.0 taken.1.items) }
        ensures proper { IfOk result (λ taken. IsProperTable taken.0) }
    {
        self.take_back_in_steps(&mut Steps::none())
    }

    /// [`take_back`](Table::take_back), with its steps counted: the cells are looked at, and those
    /// above the colour are copied twice.
    pub fn take_back_in_steps(
        self,
        steps: &mut Steps,
    ) -> Result<(Table<'a>, Vec<usize>), AllocError>
        requires { 0 < self.colours }
        ensures taken { IfOk result (λ taken. IsTakenBack self.entry taken.0 taken.1.items) }
        ensures proper { IfOk result (λ taken. IsProperTable taken.0) }
        ensures cost { steps.new ≤ steps.old + 5 * MAX_MODULES * self.entry.colours + MAX_MODULES }
    {
        let modules = starting_modules(self.graph);
        let colour = self.smallest_class(modules, steps);
        let class = class_of(*self.cells.allocator(), self.starts(colour, modules), steps)?;
        let Table {
            graph,
            colours,
            mut cells,
            inserted,
        } = self;
        remove_row(&mut cells, colour, steps)?;
        let table = Table {
            graph,
            colours: colours - 1,
            cells,
            inserted,
        };
        Ok((table, class))
    }

    /// The least of the colours whose classes are smallest, where all transfers start at the first
    /// so many modules.
    fn smallest_class(&self, modules: usize, steps: &mut Steps) -> usize
        requires some { 0 < self.now.colours }
        requires few { modules ≤ MAX_MODULES }
        requires all { StartBelow self.now.batch modules }
        ensures smallest { IsSmallestClass self.now result }
        ensures cost { steps.new ≤ steps.old + MAX_MODULES * self.now.colours }
    {
        let mut smallest = 0;
        let mut least = class_size(self.starts(0, modules), steps);
        for colour in 1..self.colours {
            let size = class_size(self.starts(colour, modules), steps);
            if size < least {
                smallest = colour;
                least = size;
            }
        }
        smallest
    }

    /// The transfers of a colour, each at the module whose link 0 it uses, where all transfers
    /// start at the first so many modules.
    fn starts(&self, colour: usize, modules: usize) -> &[Option<u16>]
        requires in_range { colour < self.now.colours }
        requires few { modules ≤ MAX_MODULES }
        requires all { StartBelow self.now.batch modules }
        ensures starts { AreStarts self.now colour result.now }
        ensures few { length result.now ≤ MAX_MODULES }
    {
        let cells = self.cells.as_slice();
        let start = colour * LINKS;
        &cells[start..start + modules]
    }

    /// The schedule of the colour classes that hold something, in the order of their least numbers;
    /// the numbers ascend in each. The table is dropped also where there is no memory.
    ///
    /// Takes time that grows with the number of colours and the number of transfers.
    pub fn into_schedule(self) -> Result<Coloured, AllocError>
        ensures classes { IfOk result (λ made. AreClassesOf self.entry.colour made.settings) }
        ensures inserted { IfOk result (λ made. made.inserted ≡ self.entry.inserted) }
        ensures count { IfOk result (λ made. length made.settings ≤ self.entry.colours) }

        // Where all transfers are placed, that is a schedule of the batch.
        ensures schedule { IfOk result (λ made. ScheduleIfAll self.entry made.settings) }
    {
        self.into_schedule_in_steps(&mut Steps::none())
    }

    /// [`into_schedule`](Table::into_schedule), with its steps counted.
    pub fn into_schedule_in_steps(self, steps: &mut Steps) -> Result<Coloured, AllocError>
        ensures classes { IfOk result (λ made. AreClassesOf self.entry.colour made.settings) }
        ensures inserted { IfOk result (λ made. made.inserted ≡ self.entry.inserted) }
        ensures count { IfOk result (λ made. length made.settings ≤ self.entry.colours) }

        // Where all transfers are placed, that is a schedule of the batch.
        ensures schedule { IfOk result (λ made. ScheduleIfAll self.entry made.settings) }
        ensures cost { steps.new
            ≤ steps.old + 2 * length self.entry.batch + (MAX_MODULES + 1) * self.entry.colours }
    {
        let alloc = *self.cells.allocator();
        let colour = self.colour_list(alloc, steps)?;
        let lists = classes(alloc, colour.as_slice(), self.colours, steps)?;
        Ok(Coloured::of(lists, self.inserted))
    }

    /// The colour of each transfer of the graph.
    fn colour_list(
        &self,
        alloc: Global,
        steps: &mut Steps,
    ) -> Result<Vec<Option<usize>>, AllocError>
        ensures list { IfOk result (λ list. list.items ≡ self.now.colour) }
        ensures cost { steps.new
            ≤ steps.old + length self.now.batch + MAX_MODULES * self.now.colours }
    {
        let count = self.graph.len();
        steps.tick_many(count);
        let mut list = vec![in alloc; None; count]?;
        let modules = starting_modules(self.graph);
        for colour in 0..self.colours {
            note_class(&mut list, self.starts(colour, modules), colour, steps);
        }
        Ok(list)
    }

    /// A colour that is free at the link that `t` uses at an end, where one is.
    fn free_colour(&self, t: usize, end: End, steps: &mut Steps) -> Option<usize>
        requires { t < length self.now.batch }
        ensures some { IfSome result (λ c. (c < self.now.colours) × IsFreeAt self.now t end c) }
        ensures room { OnSome result (placed_uses_at self.now t end < self.now.colours) }
        ensures none { IfNone result (placed_uses_at self.now t end ≡ self.now.colours) }
        ensures cost { steps.new ≤ steps.old + self.now.colours }
    {
        let place = place_at(self.graph, t, end);
        for colour in 0..self.colours {
            steps.tick();
            if self.cells[colour * LINKS + place].is_none() {
                return Some(colour);
            }
        }
        None
    }

    /// The transfer of a colour at the link that `t` uses at an end.
    fn holder(&self, t: usize, end: End, colour: usize) -> Option<usize>
        requires known { t < length self.now.batch }
        requires in_range { colour < self.now.colours }
        ensures { MatchOption result
            (IsFreeAt self.now t end colour)
            (TakesAt self.now t end colour) }
    {
        let place = place_at(self.graph, t, end);
        let holder = self.cells[colour * LINKS + place]?;
        Some(usize::from(holder))
    }

    /// Gives `t` a colour that is free at both of its links.
    fn put_in(&mut self, t: usize, colour: usize)
        requires known { t < length self.old.batch }
        requires in_range { colour < self.old.colours }
        requires out { colour_at self.old.colour t ≡ None }
        requires zero_free { IsFreeAt self.old t Zero colour }
        requires three_free { IsFreeAt self.old t Three colour }
        ensures written { self.new ≡ with_colour self.old t (Some colour) }
        ensures proper { IsProperTable self.new }
    {
        let zero = place_at(self.graph, t, End::Zero);
        let three = place_at(self.graph, t, End::Three);
        let number = t as u16;
        self.cells[colour * LINKS + zero] = Some(number);
        self.cells[colour * LINKS + three] = Some(number);
    }

    /// Takes the colour of `t` away.
    fn take_out(&mut self, t: usize, colour: usize)
        requires known { t < length self.old.batch }
        requires in_range { colour < self.old.colours }
        requires placed { colour_at self.old.colour t ≡ Some colour }
        ensures written { self.new ≡ with_colour self.old t None }
        ensures proper { IsProperTable self.new }
    {
        let zero = place_at(self.graph, t, End::Zero);
        let three = place_at(self.graph, t, End::Three);
        self.cells[colour * LINKS + zero] = None;
        self.cells[colour * LINKS + three] = None;
    }

    /// Places `t` with the colour `first`, which is free at its link 0, where `second` is free at
    /// its link 3.
    ///
    /// A transfer that is in the way loses its colour and is in hand next. It takes the other of
    /// the two colours, which is free where it made way; another may be in the way at its other
    /// end, and so on along a path on which the two colours alternate.
    fn place(&mut self, t: usize, first: usize, second: usize, steps: &mut Steps)
        requires known { t < length self.old.batch }
        requires proper { IsProperTable self.old }
        requires out { colour_at self.old.colour t ≡ None }
        requires first_in { first < self.old.colours }
        requires second_in { second < self.old.colours }
        requires first_free { IsFreeAt self.old t Zero first }
        requires second_free { IsFreeAt self.old t Three second }
        ensures placed { PlacesJust self.old.colour self.new.colour t }
        ensures rest { self.new ≡ record self.old { colour = self.new.colour } }
        ensures proper { IsProperTable self.new }
        ensures cost { steps.new ≤ steps.old + 2 * MAX_MODULES + 1 }
    {
        self.is_narrow(first);
        self.is_narrow(second);
        let mut hand = t;
        let mut end = End::Three;
        let mut colour = first;
        let mut other = second;
        'path: while let Some(next) = self.holder(hand, end, colour) {
            steps.tick();
            self.take_out(next, colour);
            self.put_in(hand, colour);
            hand = next;
            end = end.other();
            (colour, other) = (other, colour);
        }
        steps.tick();
        self.put_in(hand, colour);
    }

    /// A class has at most one transfer for each module.
    fn is_narrow(&self, colour: usize)
        requires { colour < self.now.colours }
        ensures { class_size self.now.colour colour ≤ MAX_MODULES }
    {
        let _cells = self.cells.as_slice();
    }
}

/// How many modules there are up to the last at which a transfer starts.
fn starting_modules(graph: &LinkGraph) -> usize
    requires { IsBatch graph.now }
    ensures few { result ≤ MAX_MODULES }
    ensures all { StartBelow graph.now result }
{
    let mut count = 0;
    for module in 0..MAX_MODULES {
        let link = Link {
            end: End::Zero,
            module,
        };
        if graph.uses(link) > 0 {
            count = module + 1;
        }
    }
    count
}

/// The place in a row of the link that transfer `t` uses at an end.
fn place_at(graph: &LinkGraph, t: usize, end: End) -> usize
    requires known { t < length graph.now }
    requires batch { IsBatch graph.now }
    ensures place { result ≡ place_at graph.now t end }
    ensures below { result < LINKS }
{
    let (start, answer) = graph.ends(t).unwrap();
    match end {
        End::Zero => start.index(),
        End::Three => answer.index(),
    }
}
