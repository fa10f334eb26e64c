//! Texts with their first fault of shape, or none: the order of the checks, several files, and limits.

/// Rows, as `wrong_rows` reads them.
pub const ORDER: &str = "\
# of one element, each of the six checks before those behind it
<opsa-mef><if x='1'/></opsa-mef> => unknown element if
<opsa-mef><if><x/></if></opsa-mef> => unknown element if
<opsa-mef><define-fault-tree x='1'/></opsa-mef> => bad attribute x
<opsa-mef><define-fault-tree name='.' x='1'/></opsa-mef> => bad attribute x
<opsa-mef><define-fault-tree name='.' name='F'/></opsa-mef> => bad attribute name
<opsa-mef><define-fault-tree name='F' x='1'>|<if/></define-fault-tree></opsa-mef> => bad attribute x
<opsa-mef><define-rule name='R' x='1'/></opsa-mef> => bad attribute x
<opsa-mef><define-CCF-group name='.'/></opsa-mef> => bad attribute model
<opsa-mef><define-fault-tree>|<if/></define-fault-tree></opsa-mef> => bad attribute name
<opsa-mef><define-rule/></opsa-mef> => bad attribute name
<opsa-mef><define-fault-tree name='.'>|<if/></define-fault-tree></opsa-mef> => bad name define-fault-tree
<opsa-mef><define-rule name='.'/></opsa-mef> => bad name define-rule
<opsa-mef><define-rule name='R'><if>|<x/></if></define-rule></opsa-mef> => 0:2: unknown element x
<opsa-mef><define-fault-tree name='F'><define-gate name='g'><atleast min='3'>|<gate name='.'/></atleast></define-gate></define-fault-tree></opsa-mef> => 0:2: bad name gate
# attributes as they stand, missing ones and values in the order of the table
<opsa-mef><define-fault-tree x='1' name='F' name='F'/></opsa-mef> => bad attribute x
<opsa-mef><define-fault-tree name='F' name='F' x='1'/></opsa-mef> => bad attribute name
<opsa-mef><define-CCF-group model='MGL' name='G' name='G' model='MGL'/></opsa-mef> => bad attribute name
<opsa-mef><define-CCF-group model='x' name='.'/></opsa-mef> => bad name define-CCF-group
<opsa-mef><define-CCF-group model='x' name='G'/></opsa-mef> => bad attribute model
<opsa-mef><define-initiating-event event-tree='.' name='I'/></opsa-mef> => bad name define-initiating-event
# an element before those behind it, by whichever check
<opsa-mef>|<define-rule name='R'/>|<if/></opsa-mef> => 0:2: bad shape define-rule
<opsa-mef>|<define-rule name='R'/>|<define-fault-tree x='1'/></opsa-mef> => 0:2: bad shape define-rule
<opsa-mef>|<define-rule name='R'/>|<define-fault-tree/></opsa-mef> => 0:2: bad shape define-rule
<opsa-mef>|<define-rule name='R'/>|<define-fault-tree name='.'/></opsa-mef> => 0:2: bad shape define-rule
<opsa-mef>|<define-rule name='R'>|<if/></define-rule>|<x/></opsa-mef> => 0:3: bad shape if
<opsa-mef>|<define-fault-tree name='.'/>|<if/></opsa-mef> => 0:2: bad name define-fault-tree
<opsa-mef>|<define-fault-tree name='.'/>|<define-fault-tree x='1'/></opsa-mef> => 0:2: bad name define-fault-tree
<opsa-mef>|<define-fault-tree name='.'/>|<define-fault-tree/></opsa-mef> => 0:2: bad name define-fault-tree
<opsa-mef>|<define-fault-tree/>|<if/></opsa-mef> => 0:2: bad attribute name
<opsa-mef>|<define-fault-tree/>|<define-fault-tree x='1'/></opsa-mef> => 0:2: bad attribute name
<opsa-mef>|<define-fault-tree x='1'/>|<if/></opsa-mef> => 0:2: bad attribute x
# children one after another, each whole, then their number, their order and the bounds
<opsa-mef><define-fault-tree name='F'><define-gate name='g'>|<and/>|<if/></define-gate></define-fault-tree></opsa-mef> => 0:2: bad shape and
<opsa-mef><define-fault-tree name='F'><define-gate name='g'>|<if/>|<and/></define-gate></define-fault-tree></opsa-mef> => 0:2: unknown element if
<opsa-mef><define-fault-tree name='F'><define-gate name='g'>|<and>|<not/></and>|<if/></define-gate></define-fault-tree></opsa-mef> => 0:3: bad shape not
<opsa-mef><define-fault-tree name='F'><define-gate name='g'>|<not>|<gate name='a'/>|<gate name='b'/></not>|<if/></define-gate></define-fault-tree></opsa-mef> => 0:2: bad shape not
<opsa-mef><define-fault-tree name='F'>|<define-gate name='g'/>|<if/></define-fault-tree></opsa-mef> => 0:2: bad shape define-gate
<opsa-mef><define-fault-tree name='F'>|<define-gate|name='g'>|</define-gate></define-fault-tree></opsa-mef> => 0:2: bad shape define-gate
<opsa-mef><define-event-tree name='E'><define-sequence name='S'>|<event-tree name='E'/><block/>|<event-tree/></define-sequence></define-event-tree></opsa-mef> => 0:3: bad attribute name
<opsa-mef><define-rule name='R'><collect-formula><atleast min='x'>|<gate/></atleast></collect-formula></define-rule></opsa-mef> => bad number min
<opsa-mef><define-rule name='R'><label>|<x/></label></define-rule></opsa-mef> => 0:2: unknown element x
<opsa-mef><define-rule name='R'><attributes>|<attribute/></attributes></define-rule></opsa-mef> => 0:2: bad attribute name
# the least number of an `atleast`, and a text that is cut off
<opsa-mef><if/></opsa-mef> => unknown element if
<opsa-mef><define-fault-tree name='F'><define-gate name='top'><atleast min='0'><basic-event name='a'/><basic-event name='b'/></atleast></define-gate></define-fault-tree></opsa-mef> => none
<opsa-mef><define-fault-tree name='F'><define-gate name='top'><atleast min='2'><basic-event name='a'/><basic-event name='b'/></atleast></define-gate></define-fault-tree></opsa-mef> => none
<opsa-mef><define-fault-tree name='F'><define-gate name='top'><atleast min='3'><basic-event name='a'/><basic-event name='b'/></atleast></define-gate></define-fault-tree></opsa-mef> => bad shape atleast
<opsa-mef name='x => no tree
# several files
 => none
<opsa-mef/>^<opsa-mef/> => none
<opsa-mef/>^|<x/> => 1:2: unknown element x
<opsa-mef>|<define-rule name='R'/></opsa-mef>^<x/> => 0:2: bad shape define-rule
<opsa-mef/>^<opsa-mef>||<define-rule name='R'/></opsa-mef>^<x/> => 1:3: bad shape define-rule
<opsa-mef/>^<opsa-mef><define-fault-tree name='F'/></opsa-mef>^<opsa-mef/> => none
<opsa-mef/>^<opsa-mef/>^<opsa-mef/>^<opsa-mef/>^<opsa-mef/>^<opsa-mef/>^<opsa-mef/>^<opsa-mef/>^<opsa-mef/>^<opsa-mef/>^<opsa-mef/>^<opsa-mef/>^<opsa-mef/>^<opsa-mef/>^<opsa-mef/>^<define-rule/> => 15:1: unknown element define-rule
<opsa-mef/>^<opsa-mef/>^<opsa-mef/>^<opsa-mef/>^<opsa-mef/>^<opsa-mef/>^<opsa-mef/>^<opsa-mef/>^<opsa-mef/>^<opsa-mef/>^<opsa-mef/>^<opsa-mef/>^<opsa-mef/>^<opsa-mef/>^<opsa-mef/>^<opsa-mef/> => none
# two of one name, and names that nothing defines, are no fault of shape
<opsa-mef><define-fault-tree name='F'/><define-fault-tree name='F'/></opsa-mef> => none
<opsa-mef><define-initiating-event name='I' event-tree='none'/></opsa-mef> => none
";

/// Rows, as `wrong_rows` reads them.
pub const LIMITS: &str = "\
# names of 128 and 129 bytes, and parts of paths
<opsa-mef><define-fault-tree name='[128 n]'/></opsa-mef> => none
<opsa-mef><define-fault-tree name='[129 n]'/></opsa-mef> => bad name define-fault-tree
<opsa-mef><define-fault-tree name='[64 \u{E9}]'/></opsa-mef> => none
<opsa-mef><define-fault-tree name='[64 \u{E9}]n'/></opsa-mef> => bad name define-fault-tree
<opsa-mef><define-rule name='R'><rule name='[129 n]'/></define-rule></opsa-mef> => bad name rule
<opsa-mef><define-rule name='R'><collect-formula><gate name='F.[128 n].g'/></collect-formula></define-rule></opsa-mef> => none
<opsa-mef><define-rule name='R'><collect-formula><gate name='F.[129 n].g'/></collect-formula></define-rule></opsa-mef> => bad name gate
<opsa-mef><define-rule name='R'><collect-formula><gate name='[255 n.]g'/></collect-formula></define-rule></opsa-mef> => none
<opsa-mef><define-rule name='R'><collect-formula><gate name='[129 n]'/></collect-formula></define-rule></opsa-mef> => bad name gate
# numbers of arguments
<opsa-mef><define-rule name='R'><collect-formula>[1 <gate name='g'/>]</collect-formula></define-rule></opsa-mef> => none
<opsa-mef><define-rule name='R'><collect-formula><atleast min='1024'>[1024 <gate name='g'/>]</atleast></collect-formula></define-rule></opsa-mef> => none
<opsa-mef><define-rule name='R'><collect-formula><atleast min='1025'>[1024 <gate name='g'/>]</atleast></collect-formula></define-rule></opsa-mef> => bad shape atleast
<opsa-mef><define-rule name='R'><collect-formula><atleast min='1'>[1025 <gate name='g'/>]</atleast></collect-formula></define-rule></opsa-mef> => bad shape atleast
<opsa-mef><define-rule name='R'><collect-formula><cardinality min='0' max='1024'>[1024 <gate name='g'/>]</cardinality></collect-formula></define-rule></opsa-mef> => none
<opsa-mef><define-rule name='R'><collect-formula><cardinality min='0' max='1'>[1025 <gate name='g'/>]</cardinality></collect-formula></define-rule></opsa-mef> => bad shape cardinality
<opsa-mef><define-rule name='R'><collect-formula><or>[1025 <gate name='g'/>]</or></collect-formula></define-rule></opsa-mef> => none
# elements in one another
<opsa-mef><define-rule name='R'><collect-formula>[60 <and>]<gate name='g'/>[60 </and>]</collect-formula></define-rule></opsa-mef> => none
<opsa-mef><define-rule name='R'><collect-formula>[60 <not>]<xor/>[60 </not>]</collect-formula></define-rule></opsa-mef> => bad shape xor
<opsa-mef><define-rule name='R'><collect-formula>[61 <not>]<gate name='g'/>[61 </not>]</collect-formula></define-rule></opsa-mef> => no tree
# many elements with a fault each, the first told
<opsa-mef>[2000 <x/>|]</opsa-mef> => unknown element x
<opsa-mef>|[2000 <define-fault-tree x='' y=''/>]</opsa-mef> => 0:2: bad attribute x
<opsa-mef>||[2000 <define-fault-tree name='..'/>]</opsa-mef> => 0:3: bad name define-fault-tree
<opsa-mef>[2000 <define-rule name='R'><block/></define-rule>|]</opsa-mef> => none
<opsa-mef>[2000 <define-rule name='R'><block/></define-rule>|]<if/></opsa-mef> => 0:2001: unknown element if
";
