ghost use Rattle.std.specs.Prelude.{◌≡◌, ◌<◌, length};
ghost use Rattle.index_lists.specs.Links.{IsOneOf, with_next, with_previous, with_first, with_last};
ghost use Rattle.index_lists.specs.Links.{with_node, ends_with_node, without_node, ends_without_node};

/// The list that a node is in, and the nodes right before and right after it there. Of a node that is in no list it
/// says nothing.
#[derive(Clone, Copy)]
pub struct Link {
    pub list: u32,
    pub previous: Option<u32>,
    pub next: Option<u32>,
}

/// The first and the last node of a list, and how many nodes it has.
#[derive(Clone, Copy)]
pub struct Ends {
    pub first: Option<u32>,
    pub last: Option<u32>,
    pub count: u32,
}

/// Makes `next` stand right after a node, or first in its list where there is no node.
pub(crate) fn set_next(links: &mut [Link], ends: &mut Ends, node: Option<u32>, next: Option<u32>)
    requires { IsOneOf links.old node }
    ensures links { links.new ≡ with_next links.old node next }
    ensures ends { ends.new ≡ with_first ends.old node next }
{
    match node {
        Some(node) => links[node as usize].next = next,
        None => ends.first = next,
    }
}

/// Makes `previous` stand right before a node, or last in its list where there is no node.
pub(crate) fn set_previous(
    links: &mut [Link],
    ends: &mut Ends,
    node: Option<u32>,
    previous: Option<u32>,
)
    requires { IsOneOf links.old node }
    ensures links { links.new ≡ with_previous links.old node previous }
    ensures ends { ends.new ≡ with_last ends.old node previous }
{
    match node {
        Some(node) => links[node as usize].previous = previous,
        None => ends.last = previous,
    }
}

/// Puts a node into the place that its link names, between two nodes or at an end of the list.
pub fn insert(links: &mut [Link], ends: &mut Ends, node: u32, link: Link)
    requires node { node < length links.old }
    requires previous { IsOneOf links.old link.previous }
    requires next { IsOneOf links.old link.next }
    requires room { ends.old.count < 4294967295 }
    ensures links { links.new ≡ with_node links.old node link }
    ensures ends { ends.new ≡ ends_with_node ends.old node link }
{
    links[node as usize] = link;
    set_next(links, ends, link.previous, Some(node));
    set_previous(links, ends, link.next, Some(node));
    ends.count += 1;
}

/// Takes a node that has this link out of its place, so that its neighbours stand next to one another.
pub(crate) fn take_out(links: &mut [Link], ends: &mut Ends, link: Link)
    requires previous { IsOneOf links.old link.previous }
    requires next { IsOneOf links.old link.next }
    requires some { 0 < ends.old.count }
    ensures links { links.new ≡ without_node links.old link }
    ensures ends { ends.new ≡ ends_without_node ends.old link }
{
    set_next(links, ends, link.previous, link.next);
    set_previous(links, ends, link.next, link.previous);
    ends.count -= 1;
}
