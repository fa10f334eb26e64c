//! Elements with a fault of shape, by the elements around them.

/// Rows, as `wrong_rows` reads them.
pub const REFUSED: &str = "\
<opsa/> => unknown element opsa
<Opsa-Mef/> => unknown element Opsa-Mef
<label/> => unknown element label
<define-fault-tree name='F'/> => unknown element define-fault-tree
<x y='1' y='1'><z/></x> => unknown element x
<opsa-mef><if/></opsa-mef> => unknown element if
<opsa-mef> ... </opsa-mef>
<define-gate name='g'><constant value='true'/></define-gate> => unknown element define-gate
<define-basic-event name='e'/> => unknown element define-basic-event
<define-house-event name='h'/> => unknown element define-house-event
<define-parameter name='p'/> => unknown element define-parameter
<define-component name='C'/> => unknown element define-component
<define-functional-event name='f'/> => unknown element define-functional-event
<define-sequence name='S'/> => unknown element define-sequence
<define-branch name='b'/> => unknown element define-branch
<initial-state/> => unknown element initial-state
<members/> => unknown element members
<attribute name='a' value='b'/> => unknown element attribute
<gate name='g'/> => unknown element gate
<and/> => unknown element and
<float value='1'/> => unknown element float
<block/> => unknown element block
<event-tree name='E'/> => unknown element event-tree
<opsa-mef/> => unknown element opsa-mef
<define-ccf-group name='G' model='MGL'/> => unknown element define-ccf-group
<include file='x'/> => unknown element include
<label x=''/> => bad attribute x
<label>a<label/>b</label> => unknown element label
<attributes name='a'/> => bad attribute name
<attributes><label/></attributes> => unknown element label
<attributes><attributes/></attributes> => unknown element attributes
<attributes><attribute/></attributes> => bad attribute name
<attributes><attribute value='b'/></attributes> => bad attribute name
<attributes><attribute name=''/></attributes> => bad attribute value
<attributes><attribute type='t'/></attributes> => bad attribute name
<attributes><attribute name='a' value='b' name='a'/></attributes> => bad attribute name
<attributes><attribute name='a' value='b' value='b'/></attributes> => bad attribute value
<attributes><attribute name='a' value='b' type='c' type='c'/></attributes> => bad attribute type
<attributes><attribute name='a' value='b' unit='c'/></attributes> => bad attribute unit
<attributes><attribute name='a' value='b'><label/></attribute></attributes> => unknown element label
<model-data name='M'/> => bad attribute name
<model-data><define-gate name='g'><gate name='h'/></define-gate></model-data> => unknown element define-gate
<model-data><define-CCF-group name='G' model='MGL'/></model-data> => unknown element define-CCF-group
<model-data><define-component name='C'/></model-data> => unknown element define-component
<model-data><model-data/></model-data> => unknown element model-data
<define-fault-tree/> => bad attribute name
<define-fault-tree name='F' name='F'/> => bad attribute name
<define-fault-tree name='F' role='public'/> => bad attribute role
<define-fault-tree Name='F'/> => bad attribute Name
<define-fault-tree name=''/> => bad name define-fault-tree
<define-fault-tree name='.'/> => bad name define-fault-tree
<define-fault-tree name='a.b'/> => bad name define-fault-tree
<define-fault-tree name='a b'/> => bad name define-fault-tree
<define-fault-tree name='a:b'/> => bad name define-fault-tree
<define-fault-tree name='a/b'/> => bad name define-fault-tree
<define-fault-tree name='a&#64;'/> => bad name define-fault-tree
<define-fault-tree name='a&#91;'/> => bad name define-fault-tree
<define-fault-tree name='a`'/> => bad name define-fault-tree
<define-fault-tree name='a{'/> => bad name define-fault-tree
<define-fault-tree name='&#127;'/> => bad name define-fault-tree
<define-fault-tree name='&#9;'/> => bad name define-fault-tree
<define-fault-tree name='F'><define-fault-tree name='G'/></define-fault-tree> => unknown element define-fault-tree
<define-fault-tree name='F'><model-data/></define-fault-tree> => unknown element model-data
<define-fault-tree name='F'><gate name='g'/></define-fault-tree> => unknown element gate
<define-CCF-group/> => bad attribute name
<define-CCF-group model='MGL'/> => bad attribute name
<define-CCF-group name='G'/> => bad attribute model
<define-CCF-group name='G' model='MGL' name='G'/> => bad attribute name
<define-CCF-group name='G' model='MGL' model='MGL'/> => bad attribute model
<define-CCF-group name='G' model='MGL' role='public'/> => bad attribute role
<define-CCF-group name='G' model=''/> => bad attribute model
<define-CCF-group name='G' model='mgl'/> => bad attribute model
<define-CCF-group name='G' model='phi-factor'/> => bad attribute model
<define-CCF-group name='G.H' model='MGL'/> => bad name define-CCF-group
<define-initiating-event/> => bad attribute name
<define-initiating-event event-tree='E'/> => bad attribute name
<define-initiating-event name='I' name='I'/> => bad attribute name
<define-initiating-event name='I' event-tree='E' event-tree='E'/> => bad attribute event-tree
<define-initiating-event name='I' role='public'/> => bad attribute role
<define-initiating-event name='I.J'/> => bad name define-initiating-event
<define-initiating-event name='I' event-tree=''/> => bad name define-initiating-event
<define-initiating-event name='I' event-tree='E.F'/> => bad name define-initiating-event
<define-initiating-event name='I'><event-tree name='E'/></define-initiating-event> => unknown element event-tree
<define-rule><block/></define-rule> => bad attribute name
<define-rule name='R' name='R'><block/></define-rule> => bad attribute name
<define-rule name='R' state='s'><block/></define-rule> => bad attribute state
<define-rule name='R.S'><block/></define-rule> => bad name define-rule
<define-rule name='R'/> => bad shape define-rule
<define-rule name='R'><label/><attributes/></define-rule> => bad shape define-rule
<define-event-tree><initial-state><sequence name='S'/></initial-state></define-event-tree> => bad attribute name
<define-event-tree name='E' name='E'/> => bad attribute name
<define-event-tree name='E' role='public'/> => bad attribute role
<define-event-tree name='E.F'/> => bad name define-event-tree
<define-event-tree name='E'/> => bad shape define-event-tree
<define-event-tree name='E'><define-sequence name='S'/></define-event-tree> => bad shape define-event-tree
<define-event-tree name='E'><initial-state name='i'><sequence name='S'/></initial-state></define-event-tree> => bad attribute name
<opsa-mef><define-fault-tree name='F'> ... </define-fault-tree></opsa-mef>
<define-rule name='R'/> => unknown element define-rule
<define-event-tree name='E'/> => unknown element define-event-tree
<define-fault-tree name='E'/> => unknown element define-fault-tree
<define-sequence name='S'/> => unknown element define-sequence
<model-data/> => unknown element model-data
<basic-event name='e'/> => unknown element basic-event
<define-component/> => bad attribute name
<define-component role='private'/> => bad attribute name
<define-component name='C' name='C'/> => bad attribute name
<define-component name='C' role='public' role='public'/> => bad attribute role
<define-component name='C' role=''/> => bad attribute role
<define-component name='C' role='Private'/> => bad attribute role
<define-component name='C' unit='u'/> => bad attribute unit
<define-component name='C.D'/> => bad name define-component
<define-component name='C'><model-data/></define-component> => unknown element model-data
<define-gate><gate name='h'/></define-gate> => bad attribute name
<define-gate name='g' name='g'><gate name='h'/></define-gate> => bad attribute name
<define-gate name='g' role='public' role='private'><gate name='h'/></define-gate> => bad attribute role
<define-gate name='g' role='x'><gate name='h'/></define-gate> => bad attribute role
<define-gate name='g' unit='u'><gate name='h'/></define-gate> => bad attribute unit
<define-gate name='F.g'><gate name='h'/></define-gate> => bad name define-gate
<define-gate name='g'/> => bad shape define-gate
<define-gate name='g'><label/><attributes/></define-gate> => bad shape define-gate
<define-gate name='g'><gate name='a'/><gate name='b'/></define-gate> => bad shape define-gate
<define-gate name='g'><float value='1'/></define-gate> => unknown element float
<define-gate name='g'><define-gate name='h'/></define-gate> => unknown element define-gate
<define-basic-event/> => bad attribute name
<define-basic-event name='e' name='f'/> => bad attribute name
<define-basic-event name='e' role='private' role='private'/> => bad attribute role
<define-basic-event name='e' unit='u'/> => bad attribute unit
<define-basic-event name='e' role='internal'/> => bad attribute role
<define-basic-event name='e.f'/> => bad name define-basic-event
<define-basic-event name='e'><float value='1'/><float value='1'/></define-basic-event> => bad shape define-basic-event
<define-basic-event name='e'><constant value='true'/></define-basic-event> => unknown element constant
<define-house-event/> => bad attribute name
<define-house-event name='h' name='h'/> => bad attribute name
<define-house-event name='h' role='' role='public'/> => bad attribute role
<define-house-event name='h' role='x'/> => bad attribute role
<define-house-event name='h' value='true'/> => bad attribute value
<define-house-event name='h.i'/> => bad name define-house-event
<define-house-event name='h'><constant value='true'/><constant value='true'/></define-house-event> => bad shape define-house-event
<define-house-event name='h'><constant/></define-house-event> => bad attribute value
<define-house-event name='h'><house-event name='i'/></define-house-event> => unknown element house-event
<define-parameter><int value='1'/></define-parameter> => bad attribute name
<define-parameter name='p' name='p'><int value='1'/></define-parameter> => bad attribute name
<define-parameter name='p' role='x'><int value='1'/></define-parameter> => bad attribute role
<define-parameter name='p' role='public' role='public'/> => bad attribute role
<define-parameter name='p' unit='u' unit='u'/> => bad attribute unit
<define-parameter name='p' value='1'/> => bad attribute value
<define-parameter name='p.q'><int value='1'/></define-parameter> => bad name define-parameter
<define-parameter name='p'/> => bad shape define-parameter
<define-parameter name='p'><int value='1'/><int value='1'/></define-parameter> => bad shape define-parameter
<define-parameter name='p'><gate name='g'/></define-parameter> => unknown element gate
<define-CCF-group name='G' model='x'/> => bad attribute model
<define-CCF-group name='G' model='MGL'/> => bad shape define-CCF-group
<opsa-mef><define-fault-tree name='F'><define-component name='C'> ... </define-component></define-fault-tree></opsa-mef>
<define-rule name='R'/> => unknown element define-rule
<define-event-tree name='E'/> => unknown element define-event-tree
<define-fault-tree name='E'/> => unknown element define-fault-tree
<define-sequence name='S'/> => unknown element define-sequence
<model-data/> => unknown element model-data
<basic-event name='e'/> => unknown element basic-event
<define-component/> => bad attribute name
<define-component role='private'/> => bad attribute name
<define-component name='C' name='C'/> => bad attribute name
<define-component name='C' role='public' role='public'/> => bad attribute role
<define-component name='C' role=''/> => bad attribute role
<define-component name='C' role='Private'/> => bad attribute role
<define-component name='C' unit='u'/> => bad attribute unit
<define-component name='C.D'/> => bad name define-component
<define-component name='C'><model-data/></define-component> => unknown element model-data
<define-gate><gate name='h'/></define-gate> => bad attribute name
<define-gate name='g' name='g'><gate name='h'/></define-gate> => bad attribute name
<define-gate name='g' role='public' role='private'><gate name='h'/></define-gate> => bad attribute role
<define-gate name='g' role='x'><gate name='h'/></define-gate> => bad attribute role
<define-gate name='g' unit='u'><gate name='h'/></define-gate> => bad attribute unit
<define-gate name='F.g'><gate name='h'/></define-gate> => bad name define-gate
<define-gate name='g'/> => bad shape define-gate
<define-gate name='g'><label/><attributes/></define-gate> => bad shape define-gate
<define-gate name='g'><gate name='a'/><gate name='b'/></define-gate> => bad shape define-gate
<define-gate name='g'><float value='1'/></define-gate> => unknown element float
<define-gate name='g'><define-gate name='h'/></define-gate> => unknown element define-gate
<define-basic-event/> => bad attribute name
<define-basic-event name='e' name='f'/> => bad attribute name
<define-basic-event name='e' role='private' role='private'/> => bad attribute role
<define-basic-event name='e' unit='u'/> => bad attribute unit
<define-basic-event name='e' role='internal'/> => bad attribute role
<define-basic-event name='e.f'/> => bad name define-basic-event
<define-basic-event name='e'><float value='1'/><float value='1'/></define-basic-event> => bad shape define-basic-event
<define-basic-event name='e'><constant value='true'/></define-basic-event> => unknown element constant
<define-house-event/> => bad attribute name
<define-house-event name='h' name='h'/> => bad attribute name
<define-house-event name='h' role='' role='public'/> => bad attribute role
<define-house-event name='h' role='x'/> => bad attribute role
<define-house-event name='h' value='true'/> => bad attribute value
<define-house-event name='h.i'/> => bad name define-house-event
<define-house-event name='h'><constant value='true'/><constant value='true'/></define-house-event> => bad shape define-house-event
<define-house-event name='h'><constant/></define-house-event> => bad attribute value
<define-house-event name='h'><house-event name='i'/></define-house-event> => unknown element house-event
<define-parameter><int value='1'/></define-parameter> => bad attribute name
<define-parameter name='p' name='p'><int value='1'/></define-parameter> => bad attribute name
<define-parameter name='p' role='x'><int value='1'/></define-parameter> => bad attribute role
<define-parameter name='p' role='public' role='public'/> => bad attribute role
<define-parameter name='p' unit='u' unit='u'/> => bad attribute unit
<define-parameter name='p' value='1'/> => bad attribute value
<define-parameter name='p.q'><int value='1'/></define-parameter> => bad name define-parameter
<define-parameter name='p'/> => bad shape define-parameter
<define-parameter name='p'><int value='1'/><int value='1'/></define-parameter> => bad shape define-parameter
<define-parameter name='p'><gate name='g'/></define-parameter> => unknown element gate
<define-CCF-group name='G' model='x'/> => bad attribute model
<define-CCF-group name='G' model='MGL'/> => bad shape define-CCF-group
<opsa-mef><model-data> ... </model-data></opsa-mef>
<define-basic-event name='e' role='private'/> => bad attribute role
<define-house-event name='h' role='private'/> => bad attribute role
<define-parameter name='p' role='private'><int value='1'/></define-parameter> => bad attribute role
<define-basic-event name='e' role=''/> => bad attribute role
<define-basic-event/> => bad attribute name
<define-house-event name='h' name='h'/> => bad attribute name
<define-parameter name='p'/> => bad shape define-parameter
<define-basic-event name='e.f'/> => bad name define-basic-event
<define-basic-event name='e'><float value='1'/><int value='1'/></define-basic-event> => bad shape define-basic-event
<define-house-event name='h'><constant value='on'/></define-house-event> => bad attribute value
<opsa-mef><define-CCF-group name='G' model='MGL'> ... </define-CCF-group></opsa-mef>
<members><basic-event name='a'/></members> => bad shape define-CCF-group
 => bad shape define-CCF-group
<distribution><float value='1'/></distribution> => bad shape define-CCF-group
<members><basic-event name='a'/></members><members><basic-event name='a'/></members><distribution><float value='1'/></distribution> => bad shape define-CCF-group
<members><basic-event name='a'/></members><distribution><float value='1'/></distribution><distribution><float value='1'/></distribution> => bad shape define-CCF-group
<basic-event name='a'/> => unknown element basic-event
<float value='1'/> => unknown element float
<members/> => bad shape members
<members name='m'><basic-event name='a'/></members> => bad attribute name
<members><gate name='a'/></members> => unknown element gate
<members><event name='a'/></members> => unknown element event
<members><label/></members> => unknown element label
<members><basic-event/></members> => bad attribute name
<members><basic-event name='a..b'/></members> => bad name basic-event
<distribution/> => bad shape distribution
<distribution><float value='1'/><float value='1'/></distribution> => bad shape distribution
<distribution type='t'/> => bad attribute type
<distribution><constant value='true'/></distribution> => unknown element constant
<distribution><label/></distribution> => unknown element label
<factors level='2'/> => bad attribute level
<factors><float value='1'/></factors> => unknown element float
<factors><factors/></factors> => unknown element factors
<factors><label/></factors> => unknown element label
<factor/> => bad shape factor
<factor level='2'/> => bad shape factor
<factor><float value='1'/><float value='1'/></factor> => bad shape factor
<factor level='2' level='2'/> => bad attribute level
<factor name='f'/> => bad attribute name
<factor level=''/> => bad number level
<factor level='two'/> => bad number level
<factor level='-2'/> => bad number level
<factor level='+2'/> => bad number level
<factor level='2.0'/> => bad number level
<factor level='00002'/> => bad number level
<factor><label/></factor> => unknown element label
<opsa-mef><define-event-tree name='E'> ... <initial-state><sequence name='S'/></initial-state></define-event-tree></opsa-mef>
<initial-state><sequence name='S'/></initial-state> => bad shape define-event-tree
<initial-state/> => bad shape initial-state
<sequence name='S'/> => unknown element sequence
<block/> => unknown element block
<define-gate name='g'/> => unknown element define-gate
<define-rule name='R'/> => unknown element define-rule
<define-functional-event/> => bad attribute name
<define-functional-event name='f' name='f'/> => bad attribute name
<define-functional-event name='f' role='public'/> => bad attribute role
<define-functional-event name='f.g'/> => bad name define-functional-event
<define-functional-event name='f'><gate name='g'/></define-functional-event> => unknown element gate
<define-sequence/> => bad attribute name
<define-sequence name='S' name='S'/> => bad attribute name
<define-sequence name='S' state='s'/> => bad attribute state
<define-sequence name='S.T'/> => bad name define-sequence
<define-sequence name='S'><event-tree name='E'/><block/></define-sequence> => bad shape define-sequence
<define-sequence name='S'><event-tree name='E'/><event-tree name='E'/></define-sequence> => bad shape define-sequence
<define-sequence name='S'><sequence name='S'/></define-sequence> => unknown element sequence
<define-sequence name='S'><fork functional-event='f'/></define-sequence> => unknown element fork
<define-sequence name='S'><event-tree/></define-sequence> => bad attribute name
<define-sequence name='S'><event-tree name='E' name='E'/></define-sequence> => bad attribute name
<define-sequence name='S'><event-tree name='E.F'/></define-sequence> => bad name event-tree
<define-sequence name='S'><event-tree name='E'><label/></event-tree></define-sequence> => unknown element label
<define-branch><sequence name='S'/></define-branch> => bad attribute name
<define-branch name='b' name='b'/> => bad attribute name
<define-branch name='b' role='public'/> => bad attribute role
<define-branch name='b.c'/> => bad name define-branch
<define-branch name='b'/> => bad shape define-branch
<define-branch name='b'><label/><block/></define-branch> => bad shape define-branch
<define-branch name='b'><sequence name='S'/><sequence name='S'/></define-branch> => bad shape define-branch
<define-branch name='b'><sequence name='S'/><block/></define-branch> => bad shape define-branch
<define-branch name='b'><event-tree name='E'/></define-branch> => unknown element event-tree
<opsa-mef><define-event-tree name='E'><initial-state> ... </initial-state></define-event-tree></opsa-mef>
<block/> => bad shape initial-state
 => bad shape initial-state
<sequence name='S'/><branch name='b'/> => bad shape initial-state
<sequence name='S'/><block/> => bad shape initial-state
<label/><sequence name='S'/> => unknown element label
<attributes/><sequence name='S'/> => unknown element attributes
<event-tree name='E'/> => unknown element event-tree
<path state='s'/> => unknown element path
<sequence/> => bad attribute name
<sequence name='S' name='S'/> => bad attribute name
<sequence name='S' state='s'/> => bad attribute state
<sequence name=''/> => bad name sequence
<sequence name='E.S'/> => bad name sequence
<sequence name='S'><block/></sequence> => unknown element block
<branch/> => bad attribute name
<branch name='b' name='b'/> => bad attribute name
<branch name='E.b'/> => bad name branch
<branch name='b'><block/></branch> => unknown element block
<fork/> => bad attribute functional-event
<fork name='f'/> => bad attribute name
<fork functional-event='f' functional-event='f'/> => bad attribute functional-event
<fork functional-event='E.f'/> => bad name fork
<fork functional-event='f'/> => bad shape fork
<fork functional-event='f'><sequence name='S'/></fork> => unknown element sequence
<fork functional-event='f'><label/></fork> => unknown element label
<fork functional-event='f'><path/></fork> => bad attribute state
<fork functional-event='f'><path name='p'/></fork> => bad attribute name
<fork functional-event='f'><path state='s' state='s'/></fork> => bad attribute state
<fork functional-event='f'><path state='s.t'/></fork> => bad name path
<fork functional-event='f'><path state=''/></fork> => bad name path
<fork functional-event='f'><path state='s'/></fork> => bad shape path
<fork functional-event='f'><path state='s'><block/></path></fork> => bad shape path
<fork functional-event='f'><path state='s'><sequence name='S'/><sequence name='S'/></path></fork> => bad shape path
<fork functional-event='f'><path state='s'><sequence name='S'/><block/></path></fork> => bad shape path
<fork functional-event='f'><path state='s'><label/><sequence name='S'/></path></fork> => unknown element label
<opsa-mef><define-rule name='R'> ... </define-rule></opsa-mef>
<sequence name='S'/> => unknown element sequence
<fork functional-event='f'/> => unknown element fork
<event-tree name='E'/> => unknown element event-tree
<test-initiating-event name='I'/> => unknown element test-initiating-event
<gate name='g'/> => unknown element gate
<collect-expression/> => unknown element collect-expression
<collect-formula/> => bad shape collect-formula
<collect-formula><gate name='a'/><gate name='b'/></collect-formula> => bad shape collect-formula
<collect-formula name='c'/> => bad attribute name
<collect-formula><float value='1'/></collect-formula> => unknown element float
<collect-formula><label/></collect-formula> => unknown element label
<set-house-event><constant value='true'/></set-house-event> => bad attribute name
<set-house-event name='h' name='h'/> => bad attribute name
<set-house-event name='h' direction='both'/> => bad attribute direction
<set-house-event name='h..i'/> => bad name set-house-event
<set-house-event name='h'/> => bad shape set-house-event
<set-house-event name='h'><constant value='true'/><constant value='true'/></set-house-event> => bad shape set-house-event
<set-house-event name='h'><constant value='yes'/></set-house-event> => bad attribute value
<set-house-event name='h'><gate name='g'/></set-house-event> => unknown element gate
<block name='b'/> => bad attribute name
<block><label/></block> => unknown element label
<block><sequence name='S'/></block> => unknown element sequence
<block><block><rule/></block></block> => bad attribute name
<rule/> => bad attribute name
<rule name='R' name='R'/> => bad attribute name
<rule name='R.S'/> => bad name rule
<rule name='R'><block/></rule> => unknown element block
<if name='i'/> => bad attribute name
<if/> => bad shape if
<if><block/></if> => bad shape if
<if><test-initiating-event name='I'/></if> => bad shape if
<if><test-initiating-event name='I'/><block/><block/><block/></if> => bad shape if
<if><test-initiating-event name='I'/><test-initiating-event name='I'/><block/></if> => bad shape if
<if><block/><test-initiating-event name='I'/></if> => bad shape if
<if><block/><test-initiating-event name='I'/><block/></if> => bad shape if
<if><gate name='g'/><block/></if> => unknown element gate
<if><test-initiating-event name='I'/><label/><block/></if> => unknown element label
<opsa-mef><define-rule name='R'><if> ... <block/></if></define-rule></opsa-mef>
<gate name='g'/> => unknown element gate
<xor/> => unknown element xor
<test-initiating-event/> => bad attribute name
<test-initiating-event name='I' name='I'/> => bad attribute name
<test-initiating-event name='I' state='s'/> => bad attribute state
<test-initiating-event name='I.J'/> => bad name test-initiating-event
<test-initiating-event name='I'><label/></test-initiating-event> => unknown element label
<test-functional-event/> => bad attribute name
<test-functional-event state='s'/> => bad attribute name
<test-functional-event name='f'/> => bad attribute state
<test-functional-event name='f' state='s' name='f'/> => bad attribute name
<test-functional-event name='f' state='s' state='s'/> => bad attribute state
<test-functional-event name='f' state='s' type='t'/> => bad attribute type
<test-functional-event name='E.f' state='s'/> => bad name test-functional-event
<test-functional-event name='f' state='s.t'/> => bad name test-functional-event
<test-functional-event name='f' state='s'><block/></test-functional-event> => unknown element block
<and/> => bad shape and
<and name='a'/> => bad attribute name
<and><gate name='g'/></and> => unknown element gate
<and><block/></and> => unknown element block
<or/> => bad shape or
<or min='1'/> => bad attribute min
<or><constant value='true'/></or> => unknown element constant
<not/> => bad shape not
<not><test-initiating-event name='I'/><test-initiating-event name='I'/></not> => bad shape not
<not><event name='e'/></not> => unknown element event
<opsa-mef><define-fault-tree name='F'><define-gate name='g'> ... </define-gate></define-fault-tree></opsa-mef>
<if/> => unknown element if
<test-initiating-event name='I'/> => unknown element test-initiating-event
<parameter name='p'/> => unknown element parameter
<gate/> => bad attribute name
<gate name='g' name='g'/> => bad attribute name
<gate name='g' type='gate'/> => bad attribute type
<gate name=''/> => bad name gate
<gate name='.'/> => bad name gate
<gate name='.g'/> => bad name gate
<gate name='F.'/> => bad name gate
<gate name='F..g'/> => bad name gate
<gate name='F.P.'/> => bad name gate
<gate name='F. g'/> => bad name gate
<gate name='F,g'/> => bad name gate
<gate name='g'><label/></gate> => unknown element label
<basic-event/> => bad attribute name
<basic-event name='e' name='e'/> => bad attribute name
<basic-event name='e' role='public'/> => bad attribute role
<basic-event name='e..f'/> => bad name basic-event
<basic-event name='e'><float value='1'/></basic-event> => unknown element float
<house-event/> => bad attribute name
<house-event name='h' name='h'/> => bad attribute name
<house-event name='h..i'/> => bad name house-event
<house-event name='h'><constant value='true'/></house-event> => unknown element constant
<event/> => bad attribute name
<event type='gate'/> => bad attribute name
<event name='e' name='e'/> => bad attribute name
<event name='e' type='gate' type='gate'/> => bad attribute type
<event name='e' type=''/> => bad attribute type
<event name='e' type='Gate'/> => bad attribute type
<event name='e' type='parameter'/> => bad attribute type
<event name='e..f'/> => bad name event
<event name='e'><label/></event> => unknown element label
<constant/> => bad attribute value
<constant value='true' value='true'/> => bad attribute value
<constant name='c' value='true'/> => bad attribute name
<constant value=''/> => bad attribute value
<constant value='True'/> => bad attribute value
<constant value='1'/> => bad attribute value
<constant value='true'><label/></constant> => unknown element label
<and/> => bad shape and
<or/> => bad shape or
<nand/> => bad shape nand
<nor/> => bad shape nor
<and name='a'/> => bad attribute name
<or min='1'/> => bad attribute min
<nand max='1'/> => bad attribute max
<nor x='1'/> => bad attribute x
<and><label/><gate name='a'/></and> => unknown element label
<or><float value='1'/></or> => unknown element float
<and><or/></and> => bad shape or
<not/> => bad shape not
<not><gate name='a'/><gate name='b'/></not> => bad shape not
<not name='n'/> => bad attribute name
<xor/> => bad shape xor
<xor><gate name='a'/></xor> => bad shape xor
<xor><gate name='a'/><gate name='b'/><gate name='c'/></xor> => bad shape xor
<iff><gate name='a'/></iff> => bad shape iff
<iff><gate name='a'/><gate name='b'/><gate name='c'/></iff> => bad shape iff
<imply><gate name='a'/></imply> => bad shape imply
<imply><gate name='a'/><gate name='b'/><gate name='c'/></imply> => bad shape imply
<imply name='i'/> => bad attribute name
<atleast><gate name='a'/></atleast> => bad attribute min
<atleast min='1' min='1'/> => bad attribute min
<atleast min='1' max='1'/> => bad attribute max
<atleast min=''><gate name='a'/></atleast> => bad number min
<atleast min='one'><gate name='a'/></atleast> => bad number min
<atleast min='-1'><gate name='a'/></atleast> => bad number min
<atleast min='+1'><gate name='a'/></atleast> => bad number min
<atleast min='1.0'><gate name='a'/></atleast> => bad number min
<atleast min='00001'><gate name='a'/></atleast> => bad number min
<atleast min='0'/> => bad shape atleast
<atleast min='3'><basic-event name='a'/><basic-event name='b'/></atleast> => bad shape atleast
<atleast min='9999'><basic-event name='a'/></atleast> => bad shape atleast
<cardinality max='1'><gate name='a'/></cardinality> => bad attribute min
<cardinality min='1'><gate name='a'/></cardinality> => bad attribute max
<cardinality min='1' max='1' min='1'/> => bad attribute min
<cardinality min='1' max='1' max='1'/> => bad attribute max
<cardinality min='1' max='1' name='c'/> => bad attribute name
<cardinality min='x' max='y'><gate name='a'/></cardinality> => bad number min
<cardinality max='y' min='1'><gate name='a'/></cardinality> => bad number max
<cardinality min='1' max='12345'><gate name='a'/></cardinality> => bad number max
<cardinality min='0' max='0'/> => bad shape cardinality
<cardinality min='2' max='1'><gate name='a'/><gate name='b'/></cardinality> => bad shape cardinality
<cardinality min='1' max='3'><gate name='a'/><gate name='b'/></cardinality> => bad shape cardinality
<opsa-mef><model-data><define-parameter name='p'> ... </define-parameter></model-data></opsa-mef>
<gate name='g'/> => unknown element gate
<constant value='true'/> => unknown element constant
<bool value='true'/> => unknown element bool
<Weibull/> => unknown element Weibull
<float/> => bad attribute value
<float value='1' value='1'/> => bad attribute value
<float value='1' unit='u'/> => bad attribute unit
<float value=''/> => bad number value
<float value='.'/> => bad number value
<float value='one'/> => bad number value
<float value='1e'/> => bad number value
<float value='1e+'/> => bad number value
<float value='1.2.3'/> => bad number value
<float value='1 2'/> => bad number value
<float value='--1'/> => bad number value
<float value='1e100'/> => bad number value
<float value='1e7'/> => bad number value
<float value='-1000000.1'/> => bad number value
<float value='1000000000000000000000000000000000000e-99'/> => bad number value
<float value='1'><label/></float> => unknown element label
<int/> => bad attribute value
<int value='1' value='1'/> => bad attribute value
<int value=''/> => bad number value
<int value='-'/> => bad number value
<int value='1.0'/> => bad number value
<int value='1.'/> => bad number value
<int value='1e0'/> => bad number value
<int value='1E0'/> => bad number value
<int value='1000001'/> => bad number value
<int value='1'><int value='1'/></int> => unknown element int
<parameter/> => bad attribute name
<parameter name='q' name='q'/> => bad attribute name
<parameter name='q' unit='u' unit='u'/> => bad attribute unit
<parameter name='q' role='public'/> => bad attribute role
<parameter name='F..q'/> => bad name parameter
<parameter name=''/> => bad name parameter
<parameter name='q'><label/></parameter> => unknown element label
<system-mission-time name='t'/> => bad attribute name
<system-mission-time unit='u' unit='u'/> => bad attribute unit
<system-mission-time><int value='1'/></system-mission-time> => unknown element int
<neg/> => bad shape neg
<neg><int value='1'/><int value='1'/></neg> => bad shape neg
<neg value='1'/> => bad attribute value
<add/> => bad shape add
<mul/> => bad shape mul
<add><label/></add> => unknown element label
<mul><gate name='g'/></mul> => unknown element gate
<sub/> => bad shape sub
<sub><int value='1'/></sub> => bad shape sub
<div><int value='1'/></div> => bad shape div
<div unit='u'/> => bad attribute unit
<exponential/> => bad shape exponential
<exponential><int value='1'/></exponential> => bad shape exponential
<exponential><int value='1'/><int value='1'/><int value='1'/></exponential> => bad shape exponential
<exponential><int value='1'/><float value='x'/></exponential> => bad number value
";
