//! Elements without a fault of shape, by the elements around them.

/// Rows, as `wrong_rows` reads them.
pub const ACCEPTED: &str = "\
<opsa-mef/> => none
<opsa-mef a='1' a='2' name='.' role='x'/> => none
<opsa-mef> ... </opsa-mef>
<define-rule name='R'><block/></define-rule><model-data/><label>l</label><define-fault-tree name='F'/><attributes/><define-fault-tree name='G'/><define-initiating-event name='I'/><label/> => none
<attributes><attribute name='' value='.' type='a..b'/><attribute type='t' value='v' name='n'/></attributes> => none
<define-fault-tree name='aZ09_-\u{E9}'/> => none
<define-fault-tree name=' F '/> => none
<define-initiating-event event-tree='E' name='I'><label/></define-initiating-event> => none
<define-CCF-group model='beta-factor' name='G'><distribution><int value='0'/></distribution><members><basic-event name='a'/></members></define-CCF-group> => none
<define-CCF-group model='alpha-factor' name='G'><distribution><int value='0'/></distribution><members><basic-event name='F.a'/></members></define-CCF-group> => none
<define-rule name='R'><label/><block/><attributes/></define-rule> => none
<model-data><label/><define-parameter name='p' role='public' unit=''><int value='1'/></define-parameter><attributes/><define-basic-event name='e' role='public'/><define-house-event name='h' role='public'/></model-data> => none
<opsa-mef><define-fault-tree name='F'> ... </define-fault-tree></opsa-mef>
<label/><define-parameter name='p' role='private' unit='a.b'><label/><int value='1'/></define-parameter><define-component name='P'/><define-gate name='g'><gate name='h'/></define-gate><attributes/> => none
<define-component name='P' role='private'><define-component name='Q' role='public'><label/></define-component></define-component> => none
<define-gate name='g' role='private'><label>l</label><gate name='h'/><attributes/><label/></define-gate> => none
<define-basic-event name='e' role='private'><label/></define-basic-event> => none
<define-basic-event name='e'><float value='1'/><label/></define-basic-event> => none
<define-house-event name='h' role='private'><constant value='false'/><attributes/></define-house-event> => none
<opsa-mef><define-fault-tree name='F'><define-component name='C'> ... </define-component></define-fault-tree></opsa-mef>
<label/><define-parameter name='p' role='private' unit='a.b'><label/><int value='1'/></define-parameter><define-component name='P'/><define-gate name='g'><gate name='h'/></define-gate><attributes/> => none
<define-component name='P' role='private'><define-component name='Q' role='public'><label/></define-component></define-component> => none
<define-gate name='g' role='private'><label>l</label><gate name='h'/><attributes/><label/></define-gate> => none
<define-basic-event name='e' role='private'><label/></define-basic-event> => none
<define-basic-event name='e'><float value='1'/><label/></define-basic-event> => none
<define-house-event name='h' role='private'><constant value='false'/><attributes/></define-house-event> => none
<opsa-mef><define-CCF-group name='G' model='MGL'> ... </define-CCF-group></opsa-mef>
<factors/><factor><int value='1'/></factor><distribution><int value='1'/></distribution><label/><factors><factor level='0'><int value='1'/></factor><factor><int value='1'/></factor></factors><members><basic-event name='a'/><basic-event name='a'/></members><factor level='9999'><int value='1'/></factor> => none
<factor level='0002'><int value='1'/></factor><members><basic-event name='a'/></members><distribution><int value='1'/></distribution> => none
<opsa-mef><define-event-tree name='E'> ... <initial-state><sequence name='S'/></initial-state></define-event-tree></opsa-mef>
<define-branch name='b'><label/><block/><attributes/><sequence name='S'/><label/></define-branch><define-sequence name='S'/><label/><define-functional-event name='f'><label/></define-functional-event> => none
<define-sequence name='S'><label/><block/><label/><block/><event-tree name='E'/><attributes/></define-sequence> => none
<define-sequence name='S'><event-tree name='E'/></define-sequence> => none
<opsa-mef><define-event-tree name='E'><initial-state> ... </initial-state></define-event-tree></opsa-mef>
<block/><block/><branch name='b'/> => none
<fork functional-event='f'><path state='s'><sequence name='S'/></path><path state='s'><block/><fork functional-event='f'><path state='t'><branch name='b'/></path></fork></path></fork> => none
<opsa-mef><define-rule name='R'> ... </define-rule></opsa-mef>
<rule name='R'/><block/><collect-formula><event name='e'/></collect-formula><set-house-event name='F.h'><constant value='false'/></set-house-event> => none
<if><test-initiating-event name='I'/><block/></if> => none
<if><test-initiating-event name='I'/><if><test-functional-event name='f' state='s'/><block/></if><rule name='R'/></if> => none
<opsa-mef><define-rule name='R'><if> ... <block/></if></define-rule></opsa-mef>
<and><or><test-functional-event state='s' name='f'/></or><not><and><test-initiating-event name='I'/></and></not></and> => none
<not><not><test-initiating-event name='I'/></not></not> => none
<opsa-mef><define-fault-tree name='F'><define-gate name='g'> ... </define-gate></define-fault-tree></opsa-mef>
<gate name='F.P.Q.g'/> => none
<event type='house-event' name='F.h'/> => none
<constant value=' true '/> => none
<and><or><nand><nor><constant value='false'/></nor></nand></or></and> => none
<xor><iff><gate name='a'/><gate name='a'/></iff><imply><gate name='a'/><gate name='b'/></imply></xor> => none
<atleast min='0000'><gate name='a'/></atleast> => none
<atleast min='2'><gate name='a'/><gate name='a'/></atleast> => none
<cardinality min='0' max='0'><gate name='a'/></cardinality> => none
<cardinality max='0002' min='2'><gate name='a'/><not><gate name='b'/></not></cardinality> => none
<opsa-mef><model-data><define-parameter name='p'> ... </define-parameter></model-data></opsa-mef>
<float value='-1.5E+3'/> => none
<float value='.5'/> => none
<float value='+5.'/> => none
<float value='1000000000000000000000000000000.00000e-99'/> => none
<float value='1e6'/> => none
<int value='-1000000'/> => none
<int value='+007'/> => none
<parameter name='F.P.q' unit='a b'/> => none
<system-mission-time/> => none
<system-mission-time unit='h'/> => none
<exponential><neg><add><int value='1'/></add></neg><sub><mul><int value='1'/></mul><div><int value='1'/><int value='0'/><int value='3'/></div></sub></exponential> => none
";
