// The lines of a chain's text. Each step says how much room there must be for what it writes at its longest, with numbers of 64 bits.
ghost use Rattle.std.specs.Prelude.{[], ◌++◌, ◌+◌, ◌*◌, ◌≤◌, length};
ghost use Rattle.meaning.specs.Text.{bytes_of};
ghost use Rattle.meaning.specs.Report.{named_text};
ghost use Rattle.meaning.specs.Chain.{edge_count};
ghost use Rattle.meaning.specs.ChainText.{spaced, order_line, text_of, chain_text};
ghost use Rattle.meaning.specs.Translate.{shown_room};
ghost use Rattle.chain.specs.Given.{with};
ghost use Rattle.octets.specs.Written.{Written};
ghost use Rattle.showing.specs.Print.{Fits, state_line_of, state_lines, edge_line_of, edge_lines};

use chain::{edge, set, table};
use opening::Opened;
use text::Page;

fn count_line(page: &mut Page, name: &[u8], x: u64)
    ensures { let name = name.now in
        Fits page.old (named_text name x ++ bytes_of "\n") (length name + 21) page.new }
{
    page.named(name, x);
    page.put(b"\n");
}

fn state_line(page: &mut Page, opened: &Opened, i: usize)
    ensures { Fits page.old (state_line_of opened.now i ++ bytes_of "\n") 93 page.new }
{
    let g = &opened.given;
    page.named(b"state ", i as u64);
    page.named(b" denominator ", table::at(g.denominators, i));
    page.named(b" reward ", table::at(opened.rewards, i));
    if set::holds(g.chain.goals, i) {
        page.put(b" goal\n");
    } else {
        page.put(b"\n");
    }
}

fn edge_line(page: &mut Page, edges: &[u64], e: usize)
    ensures { Fits page.old (edge_line_of edges.now e ++ bytes_of "\n") 103 page.new }
{
    page.named(b"edge ", edge::from(edges, e));
    page.named(b" ", edge::to(edges, e));
    page.named(b" weight ", edge::weight(edges, e));
    page.named(b" reward ", edge::reward(edges, e));
    page.put(b"\n");
}

fn state_lines(page: &mut Page, opened: &Opened)
    ensures { let n = opened.now.given.chain.states in
        Fits page.old (text_of (state_lines opened.now n)) (n * 93) page.new }
{
    for i in 0..opened.given.chain.states {
        state_line(page, opened, i);
    }
}

fn order_numbers(page: &mut Page, order: &[u64])
    ensures { let order = order.now in
        Fits page.old (spaced order) (length order * 21) page.new }
{
    for state in order {
        page.named(b" ", *state);
    }
}

fn order_line(page: &mut Page, order: &[u64])
    ensures { let order = order.now in
        Fits page.old (order_line order ++ bytes_of "\n") (length order * 21 + 6) page.new }
{
    page.put(b"order");
    order_numbers(page, order);
    page.put(b"\n");
}

fn edge_lines(page: &mut Page, count: usize, edges: &[u64])
    ensures { Fits page.old (text_of (edge_lines edges.now count)) (count * 103) page.new }
{
    for e in 0..count {
        edge_line(page, edges, e);
    }
}

// The text of a chain with its tables, at the front of the buffer.
pub(crate) fn lines(opened: &Opened, buffer: &mut [u8]) -> usize
    requires { (shown_room ≤ length buffer.old) × (opened.now.given.chain.states ≤ 64) × (length opened.now.order.now ≤ 64) × (edge_count opened.now.given.edges.now ≤ 4096) }
    ensures { let l = with opened.now.given opened.now.order.now opened.now.rewards.now [] in
        Written buffer.old 0 (chain_text l) buffer.new result }
{
    let g = &opened.given;
    let c = g.chain;
    let count = edge::count(g.edges);
    let mut page = Page { buffer, at: 0 };
    count_line(&mut page, b"states ", c.states as u64);
    count_line(&mut page, b"edges ", count as u64);
    count_line(&mut page, b"start ", c.start as u64);
    state_lines(&mut page, opened);
    order_line(&mut page, opened.order);
    edge_lines(&mut page, count, g.edges);
    page.at
}
