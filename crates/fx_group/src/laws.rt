// Laws, and no work: what groups keep of the rows.
ghost use Rattle.fx_group.specs.Laws.{GroupsComeBack};

use fx_value::compare_is_total;

/// Where no key has an error, rows out of their groups are the rows that were grouped, rearranged
/// so that rows of equal keys keep their order.
pub fn groups_come_back()
    ensures { GroupsComeBack }
{
    compare_is_total();
}
