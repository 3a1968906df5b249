// Bit maps of nodes: bit i - 1 is node i's.
ghost use Rattle.std.specs.Prelude.{◌≡◌, cond, ◌&&◌, ◌-◌, ◌≤◌, ◌<◌, ◌/◌, ◌%◌, ◌^◌, leb, length};
ghost use Rattle.coding.specs.Nodes.{nodes_of};
ghost use Rattle.parties.specs.protocol.Nodes.{stands as standing, count as counted, with_node};

fn bit(map: u16, i: usize) -> usize
    requires { i < 16 }
    ensures { result ≡ map / 2 ^ i % 2 }
{
    ((map >> i) & 1) as usize
}

pub(crate) fn stands(map: u16, i: usize) -> bool
    requires { (1 ≤ i) × (i ≤ 16) }
    ensures { result ≡ standing map i }
{
    bit(map, i - 1) == 1
}

// How many nodes a map names.
pub fn count(map: u16) -> usize
    ensures { result ≡ counted map }
{
    map.count_ones() as usize
}

// How many nodes below i a map names.
pub(crate) fn rank(map: u16, i: usize) -> usize
    requires { (1 ≤ i) × (i ≤ 16) }
    ensures { result ≡ length (nodes_of map (i - 1)) }
{
    (map & ((1u16 << (i - 1)) - 1)).count_ones() as usize
}

pub(crate) fn with_node(map: u16, i: usize) -> u16
    requires { (1 ≤ i) × (i ≤ 16) }
    ensures { result ≡ with_node map i }
{
    map | (1u16 << (i - 1))
}

// Node i, of 1 to 16, is in the map.
pub fn has_node(map: u16, i: usize) -> bool
    ensures { result ≡ (leb 1 i && (leb i 16 && standing map i)) }
{
    1 <= i && i <= 16 && stands(map, i)
}

// Node i is added; a number that is no node's changes nothing.
pub fn add_node(map: u16, i: usize) -> u16
    ensures { result ≡ cond (leb 1 i && leb i 16) (with_node map i) map }
{
    if 1 <= i && i <= 16 {
        with_node(map, i)
    } else {
        map
    }
}
